// The commands that need no shelf: `read` and `check`.
use crate::answers::{Done, bytes_of, records, refused};
use crate::checks::checked;
use crate::listing::list;
use crate::requests::FileAsked;
use filing::VolumeFault;
use std::fs;

// Each record of the file by itself, then the refusal where one cannot be read.
pub fn read(rt: &HostRuntime, head: &str, asked: FileAsked) -> Done {
    let bytes = bytes_of(rt, head, asked.path, fs::read(rt, asked.path))?;
    let listing = list(rt.alloc(), &bytes, &asked.edition)?;
    let many = records(listing.records);
    println!(rt; "{head}: {many}, each by itself")?;
    let lines = listing.lines.as_str();
    print!(rt; "{lines}")?;
    match listing.fault {
        None => Ok(()),
        Some(fault) => refused(rt, head, VolumeFault::File(fault)),
    }
}

pub fn check(rt: &HostRuntime, head: &str, asked: FileAsked, payers: usize) -> Done {
    let bytes = bytes_of(rt, head, asked.path, fs::read(rt, asked.path))?;
    match checked(rt.alloc(), &bytes, &asked.edition, payers)? {
        Ok(counts) => {
            let payments = counts.payments;
            let deductions = counts.deductions;
            let extras = counts.extras;
            let deposits = counts.deposits;
            println!(rt;
                "{head}: accepted, payments {payments}, deductions {deductions}, extra references {extras}, deposits {deposits}"
            )?;
            Ok(())
        }
        Err(fault) => refused(rt, head, VolumeFault::File(fault)),
    }
}
