//! Names, numbered by first appearance.

ghost use Rattle.std.specs.Prelude.{◌≡◌, ℕ, ◌+◌, ◌<◌, ◌≤◌, ◌&&◌, ◌++◌, ◌∷◌, [], List, None, Some, is_some, length, map, not, slice_index_or, IfOk, OnOk, OnErr};
ghost use Rattle.std.specs.List.{list_any, count_by};
ghost use Rattle.std.specs.Str.{bytes_eq};
ghost use Rattle.fab_net.specs.Names.{number_of, with_name, first_names};
ghost use Rattle.fab_net.specs.Text.{is_open};
ghost use Rattle.fab_net.specs.Said.{connected};

use indexmap::IndexSet;
use std::alloc::{AllocError, Global};
use std::marker::Model;

/// Whether a word of a pinlist names no net.
pub(crate) fn is_open(name: &[u8]) -> bool
    ensures { result ≡ is_open name.now }
{
    name == b"open".as_slice()
}

/// How many words of a pinlist name a net.
pub(crate) fn connected_count(words: &[&[u8]]) -> usize
    ensures count { result ≡ count_by (λ w. not (is_open w.now)) words.now }
{
    words.iter().filter(|word| !is_open(word)).count()
}

fn stands_among(name: &[u8], others: &[&[u8]]) -> bool
    ensures { result ≡ list_any (λ w. bytes_eq name.now w.now) others.now }
{
    others.iter().any(|other| name == *other)
}

/// The names of nets while a text is read, as slices of the text.
pub struct NetNames<'a> {
    names: IndexSet<&'a [u8]>,
}

impl<'a> Model for NetNames<'a> {
    ghost use Rattle.std.specs.Prelude.{List, ℕ, map};

    ghost Value = { List (List ℕ) };

    ghost view = { λ a. map (λ n. n.now) a.names.keys };
}

impl<'a> Drop for NetNames<'a> {
    fn drop(self) {
        let NetNames { names: _ } = self;
    }
}

impl<'a> NetNames<'a> {
    /// No names.
    pub fn new(alloc: Global) -> Self
        ensures { result ≡ [] }
    {
        NetNames {
            names: IndexSet::new(alloc),
        }
    }

    /// How many names there are.
    pub fn len(&self) -> usize
        ensures { result ≡ length self.now }
    {
        self.names.len()
    }

    /// The number of a name, or `None` if it is not there. Names are numbered from 0 in the order in which they were added.
    pub fn number_of(&self, name: &[u8]) -> Option<usize>
        ensures { result ≡ number_of name.now self.now }
    {
        self.names.get_index_of(name)
    }

    /// Whether `word` would add a name, if it follows the words `before` in a pinlist.
    fn is_new(&self, word: &[u8], before: &[&[u8]]) -> bool
        ensures { result ≡
            ((not (is_open word.now) && not (is_some (number_of word.now self.now))) &&
            not (list_any (λ w. bytes_eq word.now w.now) before.now)) }
    {
        !is_open(word) && self.number_of(word).is_none() && !stands_among(word, before)
    }

    /// How many names the words of a pinlist would add.
    pub(crate) fn count_new(&self, words: &[&[u8]]) -> usize
        ensures { (names : List (List ℕ)) → self.now ≡ first_names names →
            length self.now + result ≡
            length (first_names (names ++ connected (map (λ w. w.now) words.now))) }
    {
        let mut count = 0;
        for i in 0..words.len() {
            if self.is_new(words[i], &words[..i]) {
                count += 1;
            }
        }
        count
    }

    /// Returns the number of a name. A new name is added first. If memory runs out, nothing changes.
    pub fn intern(&mut self, name: &'a [u8]) -> Result<usize, AllocError>
        ensures found { IfOk result (λ i. number_of name.now self.new ≡ Some i) }
        ensures names { OnOk result (self.new ≡ with_name name.now self.old) }
        ensures err { OnErr result (self.new ≡ self.old) }
    {
        let (number, _) = self.names.insert_full(name)?;
        Ok(number)
    }
}

/// The names of blocks, copied from the text.
pub struct BlockNames {
    names: IndexSet<Vec<u8>>,
}

impl Model for BlockNames {
    ghost use Rattle.std.specs.Prelude.{List, ℕ, map};

    ghost Value = { List (List ℕ) };

    ghost view = { λ a. map (λ n. n.items) a.names.keys };
}

impl Drop for BlockNames {
    fn drop(self) {
        let BlockNames { names: _ } = self;
    }
}

impl BlockNames {
    /// No names.
    pub fn new(alloc: Global) -> Self
        ensures { result ≡ [] }
    {
        BlockNames {
            names: IndexSet::new(alloc),
        }
    }

    /// How many names there are.
    pub fn len(&self) -> usize
        ensures { result ≡ length self.now }
    {
        self.names.len()
    }

    /// The number of a name, or `None` if it is not there. Names are numbered from 0 in the order in which they were added.
    pub fn number_of(&self, name: &[u8]) -> Option<usize>
        ensures { result ≡ number_of name.now self.now }
    {
        self.names.get_index_of(name)
    }

    /// The name with number `number`.
    pub fn name(&self, number: usize) -> &[u8]
        requires { number < length self.now }
        ensures { result.now ≡ slice_index_or self.now number [] }
    {
        match self.names.get_index(number) {
            Some(name) => name.as_slice(),
            None => unreachable!(),
        }
    }

    /// Adds a name that is not there yet. If memory runs out, nothing changes.
    pub fn push(&mut self, alloc: Global, name: &[u8]) -> Result<(), AllocError>
        requires { number_of name.now self.old ≡ None }
        ensures names { OnOk result (self.new ≡ self.old ++ name.now ∷ []) }
        ensures err { OnErr result (self.new ≡ self.old) }
    {
        let own = Vec::from_slice(alloc, name)?;
        self.names.insert(own)?;
        Ok(())
    }
}
