// From trailer to trailer, back to the start of a shelf.
ghost use Rattle.std.specs.Prelude.{◌≡◌, ◌+◌, ◌-◌, ◌<◌, ◌≤◌, [], length, IfOk, IfSome, Ok, Some, slice_index_or};
ghost use Rattle.std.specs.Result.{result_map_both};
ghost use Rattle.trailer.specs.Trailers.{read_trailer};
ghost use Rattle.filing.specs.Volumes.{walk};
ghost use Rattle.entries.specs.Walks.{counted, parts_below, numbered, part_of, part_numbered};

use crate::reading::record_at;
use filing::VolumeFault;
use shelf::Shelf;
use trailer::{Trailer, read_trailer};

// The trailer with this shelf number, if that record is a right one.
fn trailer_at<S: Shelf>(shelf: &S, at: usize) -> Option<Trailer>
    requires { (0 < at) × (at ≤ length (S.records shelf.now)) }
    ensures is { result ≡ read_trailer (slice_index_or (S.records shelf.now) (at - 1) []) at }
    ensures placed { IfSome result (λ t. t.previous + t.records + 1 ≡ at) }
{
    read_trailer(&record_at(shelf, at), at)
}

// How many entries lie in the first `top` records, or where no right trailer is.
#[tactic(auto, using(crate::proofs::Walks::count_bad, crate::proofs::Walks::count_end, crate::proofs::Walks::count_step))]
fn count_back<S: Shelf>(shelf: &S, top: usize) -> Result<usize, VolumeFault>
    requires { top ≤ length (S.records shelf.now) }
    ensures { result ≡ counted (walk (S.records shelf.now) top top) }
{
    let mut at = top;
    let mut entries: usize = 0;
    // no `for`: it goes along links, and how many there are is known behind the last
    while at > 0 {
        let Some(trailer) = trailer_at(shelf, at) else {
            return Err(VolumeFault::NoTrailer(at));
        };
        entries += 1;
        at = trailer.previous as usize;
    }
    Ok(entries)
}

// The entries in the first records of a shelf, walked from the last trailer back to the first.
#[derive(Drop)]
pub struct Walk<'a, S: Shelf> {
    pub(crate) shelf: &'a S,
    // the shelf number of the trailer that is met next, 0 at the start of the shelf
    at: usize,
    // how many entries lie up to there
    left: usize,
    ghost inside: { at ≤ length (S.records shelf.now) },
    ghost walked: { counted (walk (S.records shelf.now) at at) ≡ Ok left },
}

impl<'a, S: Shelf> Walk<'a, S> {
    // Begins at the trailer with this shelf number, where there is a right trailer behind each entry down to the start.
    pub fn back_from(shelf: &'a S, top: usize) -> Result<Walk<'a, S>, VolumeFault>
        requires { top ≤ length (S.records shelf.now) }
        ensures counts { result_map_both (λ w. w.left) (λ e. e) result ≡ counted (walk (S.records shelf.now) top top) }
        ensures begins { IfOk result (λ w. (w.shelf.now ≡ shelf.now) × (w.at ≡ top)) }
    {
        let left = count_back(shelf, top)?;
        Ok(Walk {
            shelf,
            at: top,
            left,
        })
    }

    // Begins at the trailer with this shelf number, where it is known that it is the one behind so many entries.
    pub fn of(shelf: &'a S, top: usize, entries: usize) -> Walk<'a, S>
        requires top { top ≤ length (S.records shelf.now) }
        requires walked { counted (walk (S.records shelf.now) top top) ≡ Ok entries }
        ensures shelf { result.shelf.now ≡ shelf.now }
        ensures top { result.at ≡ top }
        ensures entries { result.left ≡ entries }
    {
        Walk {
            shelf,
            at: top,
            left: entries,
        }
    }

    // How many entries are still to come.
    pub fn entries(&self) -> usize
        ensures { result ≡ self.now.left }
    {
        self.left
    }

    // The trailer of the entry with this number, one of those that are still to come.
    pub fn find_entry(mut self, entry: usize) -> Trailer
        requires low { 0 < entry }
        requires high { entry ≤ self.left }
        ensures part { part_numbered entry (parts_below (S.records self.entry.shelf.now) self.entry.at) ≡ Some (part_of (S.records self.entry.shelf.now) result) }
        ensures inside { result.previous + result.records ≤ length (S.records self.entry.shelf.now) }
    {
        match self.find(|(number, _)| *number == entry) {
            Some((_, trailer)) => trailer,
            None => unreachable(),
        }
    }
}

// Each entry's number with its trailer, the newest first.
impl<'a, S: Shelf> Iterator for Walk<'a, S> {
    type Item = (usize, Trailer);

    ghost use Rattle.std.specs.Iterator.{YieldsFirst, item_count};

    ghost next_gives = { YieldsFirst (λ s. numbered (parts_below (S.records s.shelf.now) s.at)) };

    ghost remaining = { item_count (λ s. numbered (parts_below (S.records s.shelf.now) s.at)) };

    fn next(&mut self) -> Option<(usize, Trailer)> {
        if self.at == 0 {
            return None;
        }
        // it is there, as `walked` says
        let trailer = trailer_at(self.shelf, self.at)?;
        let entry = self.left;
        *self = Walk {
            shelf: self.shelf,
            at: trailer.previous as usize,
            left: entry - 1,
        };
        Some((entry, trailer))
    }
}
