//! The first of some tuples, a line each.
ghost use Rattle.std.specs.Prelude.{◌≡◌, OnOk};
ghost use Rattle.tell_moves.specs.Puts.{state_of, put as put_of};

use crate::lines::put_line;
use std::alloc::{AllocError, Global};

/// The lines of tuples, as many as there is room for, and whether there are more.
#[derive(Drop)]
pub struct Listing {
    /// A line for each tuple: its values, parted by blanks.
    pub text: Vec<u8>,
    /// For how many tuples more there is room.
    pub(crate) room: usize,
    /// There are tuples for which there was no room.
    pub more: bool,
}

impl Listing {
    ghost use Rattle.std.specs.Prelude.{◌≡◌, false, []};
    ghost use Rattle.tell_moves.specs.Puts.{state_of as state};

    /// No tuple yet, and room for so many.
    pub(crate) fn new(alloc: Global, most: usize) -> Listing
        ensures { state result ≡ record { text = []; room = most; more = false } }
    {
        Listing {
            text: Vec::new(alloc),
            room: most,
            more: false,
        }
    }
}

/// Puts a tuple to the end, or notes that there is no room for it.
pub(crate) fn put(listing: &mut Listing, tuple: &[i64]) -> Result<(), AllocError>
    ensures { OnOk result (state_of listing.new ≡ put_of (state_of listing.old) tuple.now) }
{
    if listing.more {
        return Ok(());
    }
    if listing.room == 0 {
        listing.more = true;
        return Ok(());
    }
    put_line(&mut listing.text, tuple)?;
    listing.room -= 1;
    Ok(())
}
