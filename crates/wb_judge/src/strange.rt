//! What is held that no known origin gave.

ghost use Rattle.std.specs.Prelude.{◌≡◌, ◌≤◌, ◌<◌, [], IfOk, count_by, length, nat_lt, vec_capacity, vec_len};
ghost use Rattle.wb_judge.specs.Strange.{given_by, has_name, is_given_by, is_over, is_wide, no_shares, pages_in, rows_in, share_of, with_given, without_name, without_origin};

use crate::limits::{LEAST_SHARE, OF_ORIGIN, STRANGERS};
use crate::origin::Origin;
use crate::rows::{Row, add_page, add_row, opens_page, opens_row};
use std::alloc::{AllocError, Global};
use std::marker::Model;
use wb_names::{Name, PageId};

/// A drawop that no known origin gave, and the origin that did, which a record does not name.
#[derive(Clone, Copy, Debug)]
pub struct Given {
    pub name: Name,
    pub origin: Option<Origin>,
}

/// The drawops that are held and no known origin gave, each name once: at most `most`, and of one
/// origin at most `most_of_origin`.
#[derive(Drop)]
pub struct Strange {
    most: usize,
    most_of_origin: usize,
    items: Vec<Given>,
    /// Their pages, and their sources on each.
    pages: Vec<PageId>,
    rows: Vec<Row>,
}

impl Model for Strange {
    ghost use Rattle.std.specs.Prelude.{length, ◌≤◌, vec_capacity};
    ghost use Rattle.wb_judge.specs.Shares.{Shares};

    ghost Value = { Shares };

    ghost view = { λ s. record { most = s.most; most_of_origin = s.most_of_origin; given = s.items.items } };

    ghost use Rattle.wb_judge.specs.Holding.{IsHeld};

    ghost invariant = { IsHeld };
}

impl Strange {
    /// Nothing is held. `strangers` drawops of strangers are taken, or, if that is None, as many as
    /// a board of `cells` cells has for them.
    pub(crate) fn new(
        alloc: Global,
        cells: u32,
        strangers: Option<u16>,
    ) -> Result<Strange, AllocError>
        ensures { IfOk result (λ s. s ≡ no_shares cells strangers) }
    {
        let most = match strangers {
            None => share_of(cells, STRANGERS),
            Some(most) => most as usize,
        };
        let most_of_origin = share_of(cells, OF_ORIGIN).min(most);
        Ok(Strange {
            most,
            most_of_origin,
            items: Vec::with_capacity(alloc, most)?,
            pages: Vec::with_capacity(alloc, most)?,
            rows: Vec::with_capacity(alloc, most)?,
        })
    }

    /// How many such drawops are held.
    pub fn len(&self) -> usize
        ensures count { result ≡ length self.now.given }
        ensures bounded { result ≤ self.now.most }
    {
        self.items.len()
    }

    /// Whether any is taken.
    pub fn is_open(&self) -> bool
        ensures { result ≡ nat_lt 0 self.now.most }
    {
        self.most > 0
    }

    /// Whether a drawop is one of them.
    pub fn has(&self, name: &Name) -> bool
        ensures { result ≡ has_name name.now self.now.given }
    {
        self.items.iter().any(|given| given.name == *name)
    }

    /// The names of what an origin gave.
    pub fn given_by(&self, alloc: Global, origin: Origin) -> Result<Vec<Name>, AllocError>
        ensures { IfOk result (λ names. names.items ≡ given_by origin self.now.given) }
    {
        let given = self.items.iter().filter(|given| is_given_by(given, origin));
        given.map(|given| given.name).collect(alloc)
    }

    /// Whether no more new drawops are taken from an unknown origin.
    #[tactic(auto, unfolding(crate::specs::Strange::is_over))]
    pub(crate) fn is_over(&self, origin: Origin) -> bool
        ensures { result ≡ is_over origin self.now }
    {
        self.items.len() >= self.most || self.count_of(origin) >= self.most_of_origin
    }

    /// Whether it would add a page, or a source on a page, beyond what strangers may have.
    #[tactic(auto, unfolding(crate::specs::Strange::is_wide))]
    pub(crate) fn is_wide(&self, name: &Name) -> bool
        ensures { result ≡ is_wide name.now self.now }
    {
        opens_page(&self.pages, name.page()) || opens_row(&self.rows, Row::of(name))
    }

    /// How many an origin gave.
    fn count_of(&self, origin: Origin) -> usize
        ensures { result ≡ count_by (is_given_by origin) self.now.given }
    {
        self.items
            .iter()
            .filter(|given| is_given_by(given, origin))
            .count()
    }

    /// A drawop is held that no known origin gave. Its name counts once.
    #[tactic(auto, unfolding(crate::specs::Strange::with_given))]
    pub(crate) fn put(&mut self, given: Given)
        ensures { self.new ≡ with_given given self.old }
    {
        if !self.has(&given.name) && self.items.len() < self.most {
            add_page(&mut self.pages, given.name.page());
            add_row(&mut self.rows, Row::of(&given.name));
            self.items.push_reserved(given);
        }
    }

    /// A member gave a drawop: it is no longer strange.
    #[tactic(auto, unfolding(crate::specs::Strange::without_name))]
    pub(crate) fn remove(&mut self, name: &Name)
        ensures { self.new ≡ without_name name.now self.old }
    {
        self.items.retain(|given| given.name != *name);
        gather_pages(&mut self.pages, &self.items);
        gather_rows(&mut self.rows, &self.items);
    }

    /// A member speaks from there: what came from there is no longer strange.
    pub(crate) fn take_out(&mut self, origin: Origin)
        ensures { self.new ≡ without_origin origin self.old }
    {
        self.items.retain(|given| !is_given_by(given, origin));
        gather_pages(&mut self.pages, &self.items);
        gather_rows(&mut self.rows, &self.items);
    }
}

/// The pages of what is held, each once.
fn gather_pages(pages: &mut Vec<PageId>, held: &[Given])
    requires { length held.now ≤ vec_capacity pages.old }
    ensures pages { pages.new.items ≡ pages_in [] held.now }
    ensures few { vec_len pages.new ≤ length held.now }
    ensures capacity { vec_capacity pages.new ≡ vec_capacity pages.old }
{
    pages.clear();
    for given in held {
        add_page(pages, given.name.page());
    }
}

/// The sources of what is held, on each page once.
fn gather_rows(rows: &mut Vec<Row>, held: &[Given])
    requires { length held.now ≤ vec_capacity rows.old }
    ensures rows { rows.new.items ≡ rows_in [] held.now }
    ensures few { vec_len rows.new ≤ length held.now }
    ensures capacity { vec_capacity rows.new ≡ vec_capacity rows.old }
{
    rows.clear();
    for given in held {
        add_row(rows, Row::of(&given.name));
    }
}

/// Whether an origin gave it.
fn is_given_by(given: &Given, origin: Origin) -> bool
    ensures { result ≡ is_given_by origin given.now }
{
    match given.origin {
        None => false,
        Some(from) => from.is(&origin),
    }
}

/// One cell in `part`, and 16 at least.
fn share_of(cells: u32, part: u32) -> usize
    requires { 0 < part }
    ensures { result ≡ share_of cells part }
{
    (cells / part).max(LEAST_SHARE) as usize
}
