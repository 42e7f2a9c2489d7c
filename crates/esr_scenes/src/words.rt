//! The words of a line, one after another.
ghost use Rattle.std.specs.Prelude.{◌≡◌, bytes_eq, SomeIff};
ghost use Rattle.std.specs.List.{after_first, before_first, list_any};
ghost use Rattle.esr_scenes.specs.Words.{IsNumber, Spells, is_space, rest_of, value_of};

/// Whether a text is one of those.
pub fn is_among(texts: &[&str], text: &str) -> bool
    ensures { result ≡ list_any (λ other. bytes_eq other.now text.now) texts.now }
{
    texts.contains(&text)
}

/// The text before the first space, and the text after it, which is empty where there is none.
fn cut_word(text: &str) -> (&str, &str)
    ensures word { result.0.now ≡ before_first is_space text.now }
    ensures rest { result.1.now ≡ after_first is_space text.now }
{
    text.split_once(' ').unwrap_or((text, ""))
}

/// The number that a text spells, if it spells one.
fn number_of(text: &str) -> Option<u64>
    ensures { SomeIff result (IsNumber text.now) (value_of text.now) }
{
    text.parse::<u64>().ok()
}

/// What is wrong with a word that can't be read.
#[derive(Clone, Copy)]
pub struct Unread(pub &'static str);

/// The words of a line that aren't read yet. One space stands between two. In the place of one that can't be read there is another value,
/// and `end` tells what is wrong with the first of them.
#[derive(Clone, Copy)]
pub struct Words<'a> {
    rest: &'a str,
    wrong: Option<&'static str>,
}

impl<'a> Words<'a> {
    pub fn new(rest: &'a str) -> Words<'a>
        ensures { rest_of result ≡ rest.now }
    {
        Words { rest, wrong: None }
    }

    /// The words that are left, as they stand.
    pub fn rest(&self) -> &'a str
        ensures { result.now ≡ rest_of self.now }
    {
        self.rest
    }

    /// The next word, empty where none is left.
    pub fn word(&mut self) -> &'a str
        ensures word { result.now ≡ before_first is_space (rest_of self.old) }
        ensures rest { rest_of self.new ≡ after_first is_space (rest_of self.old) }
    {
        let (word, rest) = cut_word(self.rest);
        self.rest = rest;
        word
    }

    /// Notes what is wrong with the words, if nothing was wrong with those before, and gives what is to stand in their place.
    pub fn refuse<T>(&mut self, why: &'static str, instead: T) -> T
        ensures value { result ≡ instead }
        ensures rest { rest_of self.new ≡ rest_of self.old }
    {
        self.wrong = self.wrong.or(Some(why));
        instead
    }

    /// The number that a word spells.
    pub fn number_in(&mut self, word: &str) -> u64
        ensures number { Spells word.now result }
        ensures rest { rest_of self.new ≡ rest_of self.old }
    {
        match number_of(word) {
            Some(number) => number,
            None => self.refuse("not a number", 0),
        }
    }

    /// The number that the next word spells.
    pub fn number(&mut self) -> u64
        ensures number { Spells (before_first is_space (rest_of self.old)) result }
        ensures rest { rest_of self.new ≡ after_first is_space (rest_of self.old) }
    {
        let word = self.word();
        self.number_in(word)
    }

    /// What the words were read as, or what is wrong with one of them.
    pub fn end<T: Drop>(&self, value: T) -> Result<T, Unread> {
        match self.wrong {
            None => Ok(value),
            Some(why) => Err(Unread(why)),
        }
    }
}
