//! Plays scenes over the formats, the computed definitions, the files of shards and the names that a root reaches, and
//! says which lines don't hold.
#![tactic(auto)]

mod back;
mod commands;
mod formats;
mod images;
mod parts;
mod reach;
mod reuse;
mod words;

use crate::back::Back;
use crate::commands::ShelfCommands;
use crate::formats::Formats;
use crate::images::Images;
use crate::parts::Parts;
use crate::reach::Reach;
use crate::reuse::Reuse;
use esr_scenes::{Player, Scene, Tally, play_scenes};
use std::io;
use std::process::ExitCode;

/// The subjects of the scenes.
#[derive(Drop)]
struct Subjects<'a> {
    rt: &'a HostRuntime,
}

impl Player for Subjects<'_> {
    fn play_over(&self, scene: Scene<'_>, tally: &mut Tally) -> io::Result<()> {
        let rt = self.rt;
        let alloc = rt.alloc();
        match scene.over {
            "formats" => tally.play_once(rt, alloc, scene, Formats),
            "images" => tally.play_once(rt, alloc, scene, Images::new(rt)),
            "commands" => tally.play_once(rt, alloc, scene, ShelfCommands::new(alloc)),
            "parts" => tally.play_once(rt, alloc, scene, Parts),
            "back" => tally.play_once(rt, alloc, scene, Back),
            "reach" => tally.play_once(rt, alloc, scene, Reach::new(alloc)),
            "reuse" => tally.play_once(rt, alloc, scene, Reuse::new(scene.lines)),
            _ => tally.refuse(rt, scene, "it is over what there isn't"),
        }
    }
}

fn main(rt: HostRuntime) -> ExitCode {
    let text = io::read_to_string(rt.alloc(), rt.stdin());
    play_scenes(&rt, &Subjects { rt: &rt }, text)
}
