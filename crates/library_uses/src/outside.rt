//! Calls on files that are read and on places that take bytes.

ghost use Rattle.std.specs.Prelude.{◌≡◌, ◌≤◌, [], IfOk, IfSome, IsErrOf, OnErr, OnOk, length, true};
ghost use Rattle.io_kit.specs.Ends.{Rose, Took, TookPart};

use base_kit::{List, NoMemory};
use io_kit::{
    Failed, InFault, MemFile, MemSink, MemSource, Sink, Source, SureSink, SureSource, put_all,
    read_all,
};
use std::alloc::Global;

/// Goes to the start of a file.
pub fn begin<S: Source>(source: &mut S, name: &str) -> Result<(), Failed>
    ensures contents { S.contents source.new ≡ S.contents source.old }
    ensures whole { OnOk result (S.rest source.new ≡ S.contents source.old name.now) }
    ensures cause { OnErr result (Rose (S.faults source.old name.now) (S.faults source.new name.now)) }
{
    source.begin(name)
}

/// Reads a piece of the file begun last.
pub fn read<S: Source>(source: &mut S, buf: &mut [u8]) -> Result<usize, Failed>
    ensures contents { S.contents source.new ≡ S.contents source.old }
    ensures within { IfOk result (λ count. count ≤ length buf.new) }
{
    source.read(buf)
}

/// Writes a piece.
pub fn write<K: Sink>(sink: &mut K, bytes: &[u8]) -> Result<usize, Failed>
    ensures within { IfOk result (λ count. count ≤ length bytes.now) }
    ensures same { OnErr result (K.taken sink.new ≡ K.taken sink.old) }
    ensures cause { OnErr result (Rose (K.faults sink.old) (K.faults sink.new)) }
{
    sink.write(bytes)
}

/// Files in memory. Some calls on them fail.
pub fn failing_files(files: List<MemFile>, failing: List<u64>) -> MemSource
    ensures { result ≡ record { files = files; rest = []; failing = failing; calls = 0; faults = 0 } }
{
    MemSource::new(files, failing)
}

/// A place in memory. Some calls on it fail.
pub fn failing_sink(
    alloc: Global,
    most: usize,
    room: usize,
    failing: List<u64>,
) -> Result<MemSink, NoMemory>
    requires { 1 ≤ most }
    ensures { IfOk result (λ s. s ≡ record { taken = []; most = most; room = room; failing = failing; calls = 0; faults = 0 }) }
{
    MemSink::new(alloc, most, room, failing)
}

/// What a place in memory took.
pub fn taken_by(sink: &MemSink) -> &[u8]
    ensures { result.now ≡ sink.now.taken }
{
    sink.taken()
}

/// Files in memory that never fail.
pub fn sure_files(files: List<MemFile>) -> SureSource
    ensures { result ≡ record { files = files; rest = [] } }
{
    SureSource::new(files)
}

/// A place that never fails and keeps nothing.
pub fn sure_sink() -> SureSink {
    SureSink::new()
}

/// Reads the whole of a file.
pub fn whole_of<S: Source>(
    alloc: Global,
    source: &mut S,
    name: &str,
    limit: usize,
) -> Result<Vec<u8>, InFault>
    ensures contents { S.contents source.new ≡ S.contents source.old }
    ensures whole { IfOk result (λ bytes. IfSome (S.contents source.old name.now) (λ c. bytes.items ≡ c)) }
    ensures short { IfOk result (λ bytes. length bytes.items ≤ limit) }
    ensures failed { IsErrOf result InFault.Failed → Rose (S.faults source.old name.now) (S.faults source.new name.now) }
{
    read_all(alloc, source, name, limit)
}

/// Writes all bytes, or a first part where the outside fails.
pub fn put_whole<K: Sink>(sink: &mut K, bytes: &[u8]) -> Result<(), Failed>
    ensures all { OnOk result (Took (K.taken sink.old) (K.taken sink.new) bytes.now) }
    ensures part { TookPart (K.taken sink.old) (K.taken sink.new) bytes.now }
    ensures cause { OnErr result (Rose (K.faults sink.old) (K.faults sink.new)) }
{
    put_all(sink, bytes)
}
