//! Calls of targets, and what they answer.
ghost use Rattle.std.specs.Prelude.{◌≡◌, ◌≤◌, true, false, None, IsSome, map, Contains, IfSome, IsSomeAnd};

use esr_scenes::{say, say_faults, say_success};
use esr_source::Target;
use std::alloc::Global;

/// Begins a file of three bytes, and says what that answers.
fn create<T: Target>(alloc: Global, target: &mut T, name: &str, line: &mut String) -> bool
    requires none_begun { (T.told target.old).begun ≡ None }
    requires free { IfSome (T.told target.old).files (λ fs. Contains (map (λ f. f.0) fs) name.now → ⊥) }
    ensures begun { result ≡ true → IsSomeAnd (T.told target.new).begun (λ b. b.room ≡ 3) }
    ensures none_begun { result ≡ false → (T.told target.new).begun ≡ None }
    ensures files { (T.told target.new).files ≡ (T.told target.old).files }
{
    let is_ok = target.create(alloc, name, 3).is_ok();
    say_success(line, is_ok);
    is_ok
}

/// Writes `ab`, or in its place two other bytes if that fails, and says what the writes answer.
fn write<T: Target>(target: &mut T, again: &[u8; 2], line: &mut String)
    requires { IsSomeAnd (T.told target.old).begun (λ b. b.room ≡ 3) }
    ensures { IsSomeAnd (T.told target.new).begun (λ b. 1 ≤ b.room) }
{
    let is_ok = target.write(b"ab").is_ok();
    say_success(line, is_ok);
    if !is_ok {
        say_success(line, target.write(again).is_ok());
    }
}

/// Writes `c`, and says what that answers.
fn write_rest<T: Target>(target: &mut T, line: &mut String)
    requires { IsSomeAnd (T.told target.old).begun (λ b. 1 ≤ b.room) }
    ensures { IsSome (T.told target.new).begun }
{
    say_success(line, target.write(b"c").is_ok());
}

/// Ends the file, and once more if that fails, and says what that answers.
fn end<T: Target>(target: &mut T, line: &mut String)
    requires { IsSome (T.told target.old).begun }
{
    let is_ok = target.end().is_ok();
    say_success(line, is_ok);
    if !is_ok {
        say_success(line, target.end().is_ok());
    }
}

/// Makes a file of `abc`, or of `ab` alone where it has no rest, and says what each call answers. Each call that fails is
/// made once more; the write of `ab` with other bytes.
fn fill<T: Target>(
    alloc: Global,
    target: &mut T,
    name: &str,
    pieces: (&[u8; 2], bool),
    line: &mut String,
)
    requires none_begun { (T.told target.old).begun ≡ None }
    requires free { IfSome (T.told target.old).files (λ fs. Contains (map (λ f. f.0) fs) name.now → ⊥) }
{
    if create(alloc, target, name, line) || create(alloc, target, name, line) {
        write(target, pieces.0, line);
        if pieces.1 {
            write_rest(target, line);
        }
        end(target, line);
    }
}

/// Makes a file in a new target, and says what each call answers, and then how often the target has failed. Each call
/// that fails is made once more:
///
/// | Verb | What it does |
/// |---|---|
/// | `create` | begins a file, once |
/// | `fill` | begins a file, writes `ab` and `c`, and ends it |
/// | `fill-again` | begins a file, writes `ab`, or `cd` where that fails, and ends it |
pub(crate) fn say_target<T: Target>(
    alloc: Global,
    target: &mut T,
    verb: &str,
    name: &str,
    line: &mut String,
)
    requires none_begun { (T.told target.old).begun ≡ None }
    requires free { IfSome (T.told target.old).files (λ fs. Contains (map (λ f. f.0) fs) name.now → ⊥) }
{
    match verb {
        "create" => {
            create(alloc, target, name, line);
        }
        "fill" => fill(alloc, target, name, (b"ab", true), line),
        "fill-again" => fill(alloc, target, name, (b"cd", false), line),
        _ => say(line, "no such call "),
    }
    say_faults(line, target.fault_count());
}
