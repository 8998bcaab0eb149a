// The memory words that have been read.
ghost use Rattle.std.specs.Prelude.{◌≡◌, ℕ, ◌<◌, ◌≤◌, ◌+◌, ◌*◌, [], ◌∷◌, ◌++◌, false, get_or, vec_len, OnOk, OnErr};
ghost use Rattle.guest_script.specs.Words.{page_of, is_given};

use std::alloc::{AllocError, Global};
use std::marker::Model;
use vsm_base::{Items, Page};

/// The memory words whose value is given, with a table by which each is found at once.
#[derive(Debug, Drop)]
pub struct WordList {
    items: Items<(Page, u16, u64)>,
    given: Vec<bool>,
}

impl Model for WordList {
    ghost use Rattle.std.specs.Prelude.{List, ℕ};
    ghost use Rattle.vsm_base.specs.declared.places.Page.{Page};
    ghost use Rattle.guest_script.specs.Words.{IsTable};

    ghost Value = { List (Page × ℕ × ℕ) };

    ghost view = { λ w. w.items };

    ghost invariant = { λ w. IsTable w.given.items w.items };
}

// The place of a word in the table.
fn place(page: u32, index: u16) -> usize
    ensures { result ≡ page * 512 + index }
{
    page as usize * 512 + index as usize
}

// Lengthens a table until it has a place.
fn make_place(given: &mut Vec<bool>, at: usize) -> Result<(), AllocError>
    ensures keeps { (k : ℕ) → get_or given.new.items k false ≡ get_or given.old.items k false }
    ensures room { OnOk result (at < vec_len given.new) }
{
    while given.len() <= at {
        given.push(false)?;
    }
    Ok(())
}

impl WordList {
    pub fn new(alloc: Global) -> WordList
        ensures { result ≡ [] }
    {
        WordList {
            items: Items::new(alloc),
            given: Vec::new(alloc),
        }
    }

    /// Whether the word has a value.
    pub fn has(&self, page: u32, index: u16) -> bool
        requires { index < 512 }
        ensures { result ≡ is_given page index self.now }
    {
        let at = place(page, index);
        at < self.given.len() && self.given[at]
    }

    /// Gives a word its value. An `Err` changes nothing.
    pub fn push(&mut self, page: u32, index: u16, value: u64) -> Result<(), AllocError>
        requires { index < 512 }
        ensures ok { OnOk result (self.new ≡ self.old ++ (page_of page, index, value) ∷ []) }
        ensures err { OnErr result (self.new ≡ self.old) }
    {
        let at = place(page, index);
        make_place(&mut self.given, at)?;
        self.items.push((Page(page), index, value))?;
        self.given[at] = true;
        Ok(())
    }

    pub fn into_items(self) -> Items<(Page, u16, u64)>
        ensures { result ≡ self }
    {
        let WordList { items, given: _ } = self;
        items
    }
}
