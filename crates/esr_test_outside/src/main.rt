//! Plays scenes over containers, sources, targets and streams, and says which lines don't hold.
#![tactic(auto)]

mod address;
mod calls;
mod client;
mod failing;
mod folder;
mod folder_files;
mod memory;
mod memory_files;
mod mute;
mod outside;
mod plan;
mod shaky;
mod shards;
mod streams;
mod targets;

use crate::folder::play_in_folder;
use crate::folder_files::{play_files_in_folder, play_shaky_files};
use crate::memory::Memory;
use crate::memory_files::MemoryFiles;
use crate::mute::Mute;
use crate::streams::Streams;
use esr_scenes::{Player, Scene, Tally, play_scenes};
use std::alloc::{AllocError, Global};
use std::io;
use std::process::ExitCode;

/// The subjects of the scenes.
#[derive(Drop)]
struct Subjects<'a> {
    rt: &'a HostRuntime,
}

impl Player for Subjects<'_> {
    fn play_over(&self, scene: Scene<'_>, tally: &mut Tally) -> io::Result<()> {
        let rt = self.rt;
        let (alloc, lines) = (rt.alloc(), scene.lines);
        match scene.over {
            "memory" => tally.play_once(rt, alloc, scene, Memory::new(alloc, lines)?),
            "folder" => play_in_folder(rt, scene, tally),
            "mute" => tally.play_once(rt, alloc, scene, Mute::new()),
            "memory-files" => tally.play_once(rt, alloc, scene, MemoryFiles::new(alloc, lines)?),
            "folder-files" => play_files_in_folder(rt, scene, tally),
            "shaky-files" => play_shaky_files(rt, scene, tally),
            "streams" => tally.play_once(rt, alloc, scene, Streams { rt }),
            _ => tally.refuse(rt, scene, "it is over what there isn't"),
        }
    }
}

/// The text in which `\0` is a zero byte, `\d` byte 127, and `<255>` a name of so many bytes.
fn with_words(alloc: Global, text: &str) -> Result<String, AllocError> {
    let text = text.replace(alloc, "\\0", "\0")?;
    let text = text.as_str().replace(alloc, "\\d", "\x7f")?;
    let long = "x".repeat(alloc, 255)?;
    text.as_str().replace(alloc, "<255>", long.as_str())
}

/// The scenes of standard input.
fn scenes(rt: &HostRuntime) -> io::Result<String> {
    let text = io::read_to_string(rt.alloc(), rt.stdin())?;
    Ok(with_words(rt.alloc(), text.as_str())?)
}

fn main(rt: HostRuntime) -> ExitCode {
    let text = scenes(&rt);
    play_scenes(&rt, &Subjects { rt: &rt }, text)
}
