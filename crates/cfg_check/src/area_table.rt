//! OSPF `network` lines as rows of bits, one for each digit of an address.

ghost use Rattle.std.specs.Prelude.{◌≡◌, ◌≤◌, ◌<◌, ◌+◌, ◌*◌, IfOk, OnOk, length};
ghost use Rattle.std.specs.Fork.{slice_chunk};
ghost use Rattle.std.specs.List.{list_any};
ghost use Rattle.cfg_ast.specs.declared.ospf.AreaLine.{AreaLine};
ghost use Rattle.cfg_ast.specs.meaning.Topology.{line_has_address};
ghost use Rattle.cfg_check.specs.AreaTables.{digit_at, agrees_at, agrees_in, agrees_below, bits_after, bits_of, AddsRow, HasRows};

use base_kit::NoMemory;
use cfg_ast::AreaLine;
use std::alloc::Global;

// As many lines as a word has bits.
const CHUNK: usize = 64;

// So many lines are looked at one by one: to fill a table takes longer.
const FEW: usize = 16;

// A row for each hexadecimal digit at each of the eight places of an address.
const ROWS: u32 = 128;

/// The lines by the digits of the addresses that they have.
///
/// For each digit at each place there is a row of words, whose bits say which lines agree with an
/// address that has the digit there. A look-up takes some steps for each 64 lines, whatever their
/// wildcards are. A few lines have no rows.
#[derive(Drop)]
pub(crate) struct AreaTable<'a> {
    pub(crate) lines: &'a [AreaLine],
    chunks: usize,
    words: Vec<u64>,
    pub ghost rows: { HasRows words.items lines.now chunks 128 },
    pub ghost covers: { 0 < chunks → length lines.now ≤ chunks * 64 },
}

fn digit_at(number: u32, place: u32) -> u32
    requires { place < 8 }
    ensures digit { result ≡ digit_at place number }
    ensures bound { result < 16 }
{
    (number >> (4 * place)) % 16
}

fn agrees(line: AreaLine, place: u32, digit: u32) -> bool
    requires { place < 8 }
    ensures { result ≡ agrees_at place digit line }
{
    let wild = digit_at(line.wild, place);
    digit | wild == digit_at(line.addr, place) | wild
}

// A bit for each line: whether it agrees with that digit.
fn bits(lines: &[AreaLine], place: u32, digit: u32) -> u64
    requires place { place < 8 }
    requires few { length lines.now ≤ 64 }
    ensures { result ≡ bits_after (agrees_at place digit) 0 lines.now }
{
    let mut word = 0;
    for line in lines {
        word = word * 2 + u64::from(agrees(*line, place, digit));
    }
    word
}

fn chunk_of(lines: &[AreaLine], chunk: usize) -> &[AreaLine]
    requires { chunk * 64 ≤ length lines.now }
    ensures chunk { result.now ≡ slice_chunk lines.now 64 chunk }
    ensures len { length result.now ≤ 64 }
{
    let (_, rest) = lines.split_at(chunk * CHUNK);
    let (first, _) = rest.split_at(rest.len().min(CHUNK));
    first
}

fn push_row(
    words: &mut Vec<u64>,
    lines: &[AreaLine],
    chunks: usize,
    row: u32,
) -> Result<(), NoMemory>
    requires row { row < 128 }
    requires chunks { chunks * 64 ≤ length lines.now + 63 }
    ensures { OnOk result (AddsRow words.old.items words.new.items (agrees_in row) lines.now chunks) }
{
    for chunk in 0..chunks {
        words.push(bits(chunk_of(lines, chunk), row / 16, row % 16))?;
    }
    Ok(())
}

// How many words a row has for so many lines: none for a few.
fn chunks_for(count: usize) -> usize
    ensures rows { result * 64 ≤ count + 63 }
    ensures covers { 0 < result → count ≤ result * 64 }
{
    if count <= FEW {
        0
    } else {
        count.div_ceil(CHUNK)
    }
}

// The words of all rows, of so many each.
fn rows(alloc: Global, lines: &[AreaLine], chunks: usize) -> Result<Vec<u64>, NoMemory>
    requires { chunks * 64 ≤ length lines.now + 63 }
    ensures { IfOk result (λ words. HasRows words.items lines.now chunks 128) }
{
    let mut words = Vec::new(alloc);
    if chunks == 0 {
        return Ok(words);
    }
    for row in 0..ROWS {
        push_row(&mut words, lines, chunks, row)?;
    }
    Ok(words)
}

impl<'a> AreaTable<'a> {
    /// The table of the lines.
    pub(crate) fn of(alloc: Global, lines: &'a [AreaLine]) -> Result<AreaTable<'a>, NoMemory>
        ensures { IfOk result (λ table. table.lines.now ≡ lines.now) }
    {
        let chunks = chunks_for(lines.len());
        let words = rows(alloc, lines, chunks)?;
        Ok(AreaTable {
            lines,
            chunks,
            words,
        })
    }

    // Which lines of a chunk agree with the address at a place.
    fn bits_at(&self, chunk: usize, addr: u32, place: u32) -> u64
        requires chunk { chunk < self.now.chunks }
        requires place { place < 8 }
        ensures { result ≡ bits_of (agrees_at place (digit_at place addr)) self.now.lines.now chunk }
    {
        let row = (16 * place + digit_at(addr, place)) as usize;
        self.words[row * self.chunks + chunk]
    }

    // Which lines of a chunk have the address.
    fn bits_having(&self, chunk: usize, addr: u32) -> u64
        requires { chunk < self.now.chunks }
        ensures { result ≡ bits_of (agrees_below 8 addr) self.now.lines.now chunk }
    {
        self.bits_at(chunk, addr, 0)
            & self.bits_at(chunk, addr, 1)
            & self.bits_at(chunk, addr, 2)
            & self.bits_at(chunk, addr, 3)
            & self.bits_at(chunk, addr, 4)
            & self.bits_at(chunk, addr, 5)
            & self.bits_at(chunk, addr, 6)
            & self.bits_at(chunk, addr, 7)
    }

    // The same by the rows.
    fn has_in_rows(&self, addr: u32) -> bool
        requires { 0 < self.now.chunks }
        ensures { result ≡ list_any (λ (line : AreaLine). line_has_address line addr) self.now.lines.now }
    {
        for chunk in 0..self.chunks {
            if self.bits_having(chunk, addr) != 0 {
                return true;
            }
        }
        false
    }

    /// Whether some line has the address.
    pub(crate) fn has_address(&self, addr: u32) -> bool
        ensures { result ≡ list_any (λ (line : AreaLine). line_has_address line addr) self.now.lines.now }
    {
        if self.chunks == 0 {
            self.lines.iter().any(|line| line.has_address(addr))
        } else {
            self.has_in_rows(addr)
        }
    }
}
