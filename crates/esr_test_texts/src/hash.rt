//! Prints and the digits of digests.
ghost use Rattle.std.specs.Prelude.{◌+◌, ◌<◌, ◌^◌, length};

use crate::words::{UNKNOWN, cut, number, say};
use esr_hash::{Hasher, Print, print_read, print_text};

fn print_of(first: &[u8], second: &[u8], third: &[u8]) -> Print
    requires { length first.now + length second.now + length third.now < 2 ^ 61 }
{
    let mut hasher = Hasher::start();
    hasher.feed(first);
    hasher.feed(second);
    hasher.feed(third);
    hasher.end()
}

/// Says the length of a print, its digits, and whether they are read as the print.
fn say_print(line: &mut String, print: &Print) {
    let digits = print_text(print);
    let same = print_read(print.len, digits.as_slice()) == Some(*print);
    let digits = str::from_utf8(&digits).unwrap_or("?");
    let _ = write!(line, "{} {digits} {same}", print.len);
}

/// Says the print of a text in three pieces, which slashes part.
fn say_print_of(line: &mut String, text: &str) {
    let (first, rest) = text.split_once('/').unwrap_or((text, ""));
    let (second, third) = rest.split_once('/').unwrap_or((rest, ""));
    if first.len() > 99 || second.len() > 99 || third.len() > 99 {
        return say(line, UNKNOWN);
    }
    let print = print_of(first.as_bytes(), second.as_bytes(), third.as_bytes());
    say_print(line, &print);
}

/// The print of a length and digits.
fn read(text: &str) -> Option<Print> {
    let (len, digits) = cut(text);
    print_read(number(len), digits.as_bytes())
}

fn say_read(line: &mut String, text: &str) {
    match read(text) {
        Some(print) => say_print(line, &print),
        None => say(line, "no print"),
    }
}

/// Says the order of two prints, and whether they are equal.
fn say_order(line: &mut String, text: &str) {
    let (first, second) = text.split_once(", ").unwrap_or((text, ""));
    let (first, second) = (read(first), read(second));
    let (order, same) = (first.cmp(&second), first == second);
    let _ = write!(line, "{order:?} {same}");
}

pub(crate) fn answer(line: &mut String, question: &str, text: &str) {
    match question {
        "print" => say_print_of(line, text),
        "read" => say_read(line, text),
        "order" => say_order(line, text),
        _ => say(line, UNKNOWN),
    }
}
