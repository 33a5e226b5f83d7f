//! Shows files and octets without asking for memory.
use bag_rules::{MemTree, Paths};
use std::io::{self, Write};

const DIGITS: &[u8; 16] = b"0123456789abcdef";

/// Writes whether there is a payload directory, and each file.
pub fn write_files<W: Write + Drop>(tree: &MemTree, out: &mut W) -> io::Result<()> {
    if tree.has_payload_dir() {
        write!(out, " | data/")?;
    }
    for i in 0..tree.count() {
        let path = tree.path(i);
        if let Some(octets) = tree.get(path) {
            write!(out, " | ")?;
            write_hex(path.as_str().as_bytes(), out)?;
            write!(out, " ")?;
            write_hex(octets, out)?;
        }
    }
    Ok(())
}

/// Writes octets in hex.
pub fn write_hex<W: Write + Drop>(octets: &[u8], out: &mut W) -> io::Result<()> {
    for octet in octets.iter().copied() {
        write_octet(octet, out)?;
    }
    Ok(())
}

fn write_octet<W: Write + Drop>(octet: u8, out: &mut W) -> io::Result<()> {
    let high = DIGITS[usize::from(octet / 16)];
    let low = DIGITS[usize::from(octet % 16)];
    out.write_all(&[high, low])
}

/// Writes octets in hex, or `-` if there are none.
pub fn write_field<W: Write + Drop>(octets: &[u8], out: &mut W) -> io::Result<()> {
    if octets.is_empty() {
        return write!(out, "-");
    }
    write_hex(octets, out)
}

/// Writes octets in hex, but for zeros: of these it writes how many follow each other, in parentheses. Writes `-` if
/// there are no octets.
pub fn write_sparse<W: Write + Drop>(octets: &[u8], out: &mut W) -> io::Result<()> {
    if octets.is_empty() {
        return write!(out, "-");
    }
    let mut zeros = 0_u64;
    for octet in octets.iter().copied() {
        if octet == 0 {
            zeros = zeros.saturating_add(1);
            continue;
        }
        write_zeros(zeros, out)?;
        zeros = 0;
        write_octet(octet, out)?;
    }
    write_zeros(zeros, out)
}

fn write_zeros<W: Write + Drop>(count: u64, out: &mut W) -> io::Result<()> {
    if count == 0 {
        return Ok(());
    }
    write!(out, "({count})")
}
