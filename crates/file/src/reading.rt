// A file or an entry judged line by line.
ghost use Rattle.std.specs.Prelude.{◌≡◌, nat_lt};
ghost use Rattle.manual.specs.Judging.{slot_step};
ghost use Rattle.file.specs.Judges.{state_of, held_by, outcome, read_step, finished};
ghost use Rattle.file.specs.Lines.{slot_in};

use crate::judge::Judge;
use crate::lines::Broken;
use crate::numbering::at_record;
use crate::order::ended;
use crate::payers::Payers;
use manual::{Cause, FileFault};
use record::{Edition, End, classify};

// The most records that a file may have.
const MOST: usize = 50_000;

// Whether a file may have no record with this number.
pub fn too_many(number: usize) -> bool
    ensures { result ≡ nat_lt 50000 number }
{
    number > MOST
}

impl<P: Payers> Judge<P> {
    // Judges one line: bytes that are no whole record are refused, a record is judged by its class.
    fn turn<E: Edition>(
        &mut self,
        line: Result<&[u8; 80], Broken>,
        edition: &E,
    ) -> Result<(), Cause>
        ensures same { P.same self.old.payers self.new.payers }
        ensures state { outcome result (state_of P.held self.new) ≡ slot_step (P.mode self.old.payers) (E.meaning edition.now) (state_of P.held self.old) (slot_in line.entry) }
    {
        self.step(classify(line?, edition))
    }

    // Judges the line with this number, if a file may have so many.
    pub fn read<E: Edition>(
        &mut self,
        number: usize,
        line: Result<&[u8; 80], Broken>,
        edition: &E,
    ) -> Result<(), FileFault>
        ensures same { P.same self.old.payers self.new.payers }
        ensures state { outcome result (state_of P.held self.new) ≡ read_step (P.mode self.old.payers) (E.meaning edition.now) number (state_of P.held self.old) (slot_in line.entry) }
    {
        if too_many(number) {
            return Err(FileFault {
                number,
                cause: Cause::TooMany,
            });
        }
        at_record(number, self.turn(line, edition))
    }

    // Behind the last line: the counts, if the end record has come. This number is that of the record that is else missing.
    pub fn finish(&self, number: usize) -> Result<End, FileFault>
        ensures { result ≡ finished number (state_of P.held self.now) }
    {
        if ended(self.place) {
            Ok(self.counts)
        } else {
            Err(FileFault {
                number,
                cause: Cause::Unfinished,
            })
        }
    }
}
