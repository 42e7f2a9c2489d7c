//! Small images, typed out, as a subject.
use crate::commands::say_shelf;
use crate::words::{number_of, say_has, say_refusal};
use esr_formats::read_root;
use esr_plain::{Image, picked, reach, whole};
use esr_root::RootData;
use esr_scenes::{Subject, cut, say, say_number, unquoted};
use esr_seq::Bytes;
use std::alloc::{AllocError, Global};
use std::{fs, io};

/// An image of blobs:
///
/// | Call | What it does | Answers |
/// |---|---|---|
/// | `image FILE` | takes the blobs of a file, which has a name and a text on each line | |
/// | `image FILE without NAME` | the same but for one blob | |
/// | `put NAME TEXT` | puts a blob, in place of one that has the name | |
/// | `stands N` | | the shelf for which the root of that number stands, or `none` |
/// | `picked COUNT` | | how many snapshots the shelf of the last of so many roots has, or `none` |
/// | `reaches NAME` | | how many names the root of that name reaches |
/// | `reaches-name NAME OTHER` | | whether the other name is one of these |
///
/// In a text `\0` is a zero byte.
#[derive(Drop)]
pub(crate) struct Images<'a> {
    rt: &'a HostRuntime,
    image: Image,
}

fn put_bytes(alloc: Global, image: &mut Image, name: &str, bytes: &[u8]) -> Result<(), AllocError> {
    let name = Bytes::from_slice(alloc, name.as_bytes())?;
    let bytes = Bytes::from_slice(alloc, bytes)?;
    image.put(name, bytes)
}

fn put(alloc: Global, image: &mut Image, name: &str, text: &str) -> Result<(), AllocError> {
    let text = unquoted(text).replace(alloc, "\\0", "\0")?;
    put_bytes(alloc, image, name, text.as_bytes())
}

/// Adds these blobs, but for one name.
fn add(alloc: Global, image: &mut Image, blobs: &str, left_out: &str) -> Result<(), AllocError> {
    for blob in blobs.lines() {
        let (name, text) = cut(blob);
        if name != left_out {
            put(alloc, image, name, text)?;
        }
    }
    Ok(())
}

/// The image of these blobs, but for one name.
fn image_of(alloc: Global, blobs: &str, left_out: &str) -> Result<Image, AllocError> {
    let mut image = Image::new(alloc);
    add(alloc, &mut image, blobs, left_out)?;
    Ok(image)
}

impl<'a> Images<'a> {
    pub fn new(rt: &'a HostRuntime) -> Images<'a> {
        Images {
            rt,
            image: Image::new(rt.alloc()),
        }
    }

    /// Takes the blobs of `FILE`, or of `FILE without NAME`.
    fn load(&mut self, alloc: Global, words: &str) -> io::Result<()> {
        let (file, rest) = cut(words);
        let (_, left_out) = cut(rest);
        let blobs = fs::read_to_string(self.rt, file)?;
        self.image = image_of(alloc, blobs.as_str(), left_out)?;
        Ok(())
    }

    fn say_whole(&self, alloc: Global, root: u64, line: &mut String) -> Result<(), AllocError> {
        match whole(alloc, &self.image, root)? {
            Some(shelf) => say_shelf(line, &shelf),
            None => say(line, "none"),
        }
        Ok(())
    }

    fn say_picked(&self, alloc: Global, count: u64, line: &mut String) -> Result<(), AllocError> {
        match picked(alloc, &self.image, count)? {
            Some(shelf) => say_number(line, shelf.len() as u64),
            None => say(line, "none"),
        }
        Ok(())
    }

    fn say_names(
        &self,
        alloc: Global,
        root: &RootData,
        other: &str,
        line: &mut String,
    ) -> Result<(), AllocError> {
        let names = reach(alloc, &self.image, root)?;
        if other.is_empty() {
            say_number(line, names.len() as u64);
        } else {
            say_has(names.as_slice(), other, line);
        }
        Ok(())
    }

    /// Says how many names a root reaches, or whether another name is one of them.
    fn say_reach(
        &self,
        alloc: Global,
        root: &str,
        other: &str,
        line: &mut String,
    ) -> Result<(), AllocError> {
        let Some(bytes) = self.image.get(root.as_bytes()) else {
            return line.push_str("no such root");
        };
        match read_root(alloc, bytes) {
            Ok(root) => self.say_names(alloc, &root, other, line),
            Err(refusal) => {
                say_refusal(line, &refusal);
                Ok(())
            }
        }
    }

    fn make(
        &mut self,
        alloc: Global,
        verb: &str,
        rest: &str,
        line: &mut String,
    ) -> Result<(), AllocError> {
        let (word, text) = cut(rest);
        match verb {
            "put" => put(alloc, &mut self.image, word, text),
            "stands" => self.say_whole(alloc, number_of(word), line),
            "picked" => self.say_picked(alloc, number_of(word), line),
            "reaches" | "reaches-name" => self.say_reach(alloc, word, text, line),
            _ => line.push_str("no such call"),
        }
    }
}

impl Subject for Images<'_> {
    fn call(&mut self, alloc: Global, call: &str, line: &mut String) {
        let (verb, rest) = cut(call);
        let is_made = match verb {
            "image" => self.load(alloc, rest).is_ok(),
            _ => self.make(alloc, verb, rest, line).is_ok(),
        };
        if !is_made {
            say(line, "no file, or no memory");
        }
    }
}
