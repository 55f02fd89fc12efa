//! The headers of procedures, which are found by their names.
ghost use Rattle.std.specs.Prelude.{◌≡◌, ◌∷◌, ◌++◌, ◌+◌, [], OnErr, OnOk, length, option_map, slice_get};
ghost use Rattle.std.specs.List.{list_any};
ghost use Rattle.client_values.specs.Calling.{callee_by_header};
ghost use Rattle.client_model.specs.Lookups.{is_same};
ghost use Rattle.client_model.specs.Settings.{procedure_from};

use crate::kind::Kind;
use easl_model::Name;
use name_table::NameTable;
use sqlite_items::Items;
use std::alloc::{AllocError, Global};
use std::marker::Model;

/// A procedure's name, what it takes and what it gives.
#[derive(Debug, Drop)]
pub struct Header {
    pub name: Name,
    pub params: Items<Kind>,
    pub result: Kind,
}

impl Model for Header {
    ghost use Rattle.std.specs.Prelude.{map};
    ghost use Rattle.client_values.specs.ToldKinds.{kind_told};
    ghost use Rattle.client_model.specs.Settings as told;

    ghost Value = { told.Header };

    ghost view = { λ h. record { name = h.name; params = map kind_told h.params; result = kind_told h.result } };
}

/// The headers of procedures in order, which contracts see as their list. A name stands for the first that has it, which is
/// found without a search from the front.
#[derive(Debug, Drop)]
pub struct Headers {
    headers: Items<Header>,
    names: NameTable,
}

impl Model for Headers {
    ghost use Rattle.std.specs.Prelude.{◌≡◌, List, map};
    ghost use Rattle.client_model.specs.Settings as told;

    ghost Value = { List told.Header };

    ghost view = { λ s. s.headers };

    ghost invariant = { λ s. s.names ≡ map (λ h. h.name) s.headers };
}

impl Headers {
    /// No headers. It takes no memory.
    pub fn new(alloc: Global) -> Headers
        ensures { result ≡ [] }
    {
        Headers {
            headers: Items::new(alloc),
            names: NameTable::new(alloc),
        }
    }

    /// How many headers there are.
    pub fn len(&self) -> usize
        ensures { result ≡ length self.now }
    {
        self.headers.len()
    }

    /// The number of the first procedure of this name, from 1, and its header.
    pub fn called(&self, name: &Name) -> Option<(usize, &Header)>
        ensures { option_map (λ p. callee_by_header p.0 p.1.now) result ≡ procedure_from 1 self.now name.now }
    {
        match self.names.first(name) {
            Some(before) => self.numbered(before),
            None => None,
        }
    }

    /// The procedure behind so many others, where there is one: its number, from 1, and its header.
    fn numbered(&self, before: u32) -> Option<(usize, &Header)>
        ensures { option_map (λ p. callee_by_header p.0 p.1.now) result ≡ option_map (callee_by_header (before + 1)) (slice_get self.now before) }
    {
        let before = before as usize;
        match self.headers.get(before) {
            Some(header) => Some((before + 1, header)),
            None => None,
        }
    }

    /// Whether a procedure has this name.
    pub fn has(&self, name: &Name) -> bool
        ensures { result ≡ list_any (λ h. is_same h.name name.now) self.now }
    {
        self.names.first(name).is_some()
    }

    /// Puts the header behind the others. An `Err` leaves them as they were.
    pub fn push(&mut self, header: Header) -> Result<(), AllocError>
        ensures pushed { OnOk result (self.new ≡ self.old ++ header ∷ []) }
        ensures unchanged { OnErr result (self.new ≡ self.old) }
    {
        if self.names.push(&header.name).is_err() {
            return Err(AllocError);
        }
        if self.headers.push(header).is_err() {
            self.names.truncate(self.headers.len());
            return Err(AllocError);
        }
        Ok(())
    }
}
