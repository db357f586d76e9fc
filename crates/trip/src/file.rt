// One file: its change buffer read whole, and then printed.
use decode::error::DecodeError;
use decode::listing::Listing;
use hex_text::error::HexError;
use hex_text::read::read_hex;
use std::{fs, io};
use thiserror::Error;

// Why a file's operations are not printed.
#[derive(Debug, Drop, Error)]
pub enum Trouble {
    #[error("{0}")]
    File(#[from] io::Error),
    #[error("{0}")]
    Text(#[from] HexError),
    #[error("no memory for the operations")]
    Memory,
}

pub fn decode(rt: &HostRuntime, path: &str) -> Result<(), Trouble> {
    let text = fs::read(rt, path)?;
    let bytes = read_hex(rt.alloc(), text.as_slice())?;
    let len = bytes.len();
    match Listing::read(rt.alloc(), bytes.as_slice()) {
        Ok(listing) => show(rt, path, len, &listing)?,
        Err(DecodeError::Refused(fault)) => println!(rt; "{path}: {len} bytes\nrefused: {fault}")?,
        Err(DecodeError::Memory) => return Err(Trouble::Memory),
    }
    Ok(())
}

fn show(rt: &HostRuntime, path: &str, len: usize, listing: &Listing) -> io::Result<()> {
    let count = listing.count;
    println!(rt; "{path}: {len} bytes, count {count}")?;
    for operation in listing.operations.iter() {
        println!(rt; "{operation}")?;
    }
    match listing.ending {
        Ok(rest) => println!(rt; "accepted: {count} operations, {rest} bytes after them"),
        Err(fault) => println!(rt; "refused: {fault}"),
    }
}
