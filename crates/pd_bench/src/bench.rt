//! A session: it reads edits and shows, and writes their answers.

ghost use Rattle.std.specs.Prelude.{◌≡◌, ◌+◌, ◌<◌, ◌≤◌, ◌^◌, ◌∷◌, [], length, OnOk, MatchResult};
ghost use Rattle.pd_device.specs.Device.{CountsFailure};
ghost use Rattle.pd_device.specs.declared.fault.BenchFault.TheVariants.{WriteFailed as write_failed};
ghost use Rattle.pd_bench.specs.Cost.{SessionPaid};
ghost use Rattle.pd_bench.specs.Session.{CountsFault, SessionEnds, WritesSession, answered};
ghost use Rattle.pd_bench.specs.Stream.{Fed, FedPart, Finished, FinishedPart, IsRunning, TookIn, TookPart, so_far};

use crate::answer::{State, answer, write_done};
use crate::pending::Pending;
use crate::{Tally, TextIn};
use pd_device::{BenchFault, TextOut};
use pd_port::Meter;
use pd_run::Runner;
use pd_scenario::Scenario;
use std::alloc::Global;

/// The most bytes of an edit script.
const LIMIT: usize = 16_777_216;

/// How many bytes are read at a time.
const CHUNK: usize = 512;

/// Answers the lines of the reader, and counts them.
///
/// # Errors
/// `Memory` where there is none for the first run; then nothing was read or written. `ReadFailed` and `WriteFailed`
/// where a device failed, and `ReaderTooLong` where there are more than 16,777,216 bytes; then the first bytes of the
/// text have gone out.
pub fn session<const N: usize, T: Runner<N>, R: TextIn, W: TextOut>(
    alloc: Global,
    scenario: Scenario<N>,
    runner: &mut T,
    reader: &mut R,
    writer: &mut W,
    meter: &mut Meter,
) -> Result<Tally, BenchFault>
    ensures text { SessionEnds N result (R.left reader.old) (R.left reader.new) (W.taken writer.old) (W.taken writer.new) scenario.entry }
    ensures counts { CountsFault result (R.failures reader.old) (R.failures reader.new)
        (W.failures writer.old) (W.failures writer.new) }
    // All that the reader had, where both devices tell their bytes.
    ensures whole { WritesSession N result (R.left reader.old) (W.taken writer.old) (W.taken writer.new) scenario.entry }
    // The meter goes up by what the first run and each edit cost this runner.
    ensures cost { SessionPaid T.costs N result (R.left reader.old) (R.left reader.new) (W.taken writer.old) (W.taken writer.new)
        (T.plan runner.old) scenario.entry meter.old meter.new }
    ensures rises { meter.old ≤ meter.new }
{
    if runner.replace(alloc, &scenario, meter).is_err() {
        return Err(BenchFault::Memory);
    }
    let mut state = State {
        scenario,
        tally: Tally::new(),
    };
    let mut line = Pending::new();
    take_in(alloc, &mut line, &mut state, runner, reader, writer, meter)?;
    finish(alloc, &line, &mut state, runner, writer, meter)?;
    Ok(state.tally)
}

/// Reads to the end, and answers each line that a line feed ends.
fn take_in<const N: usize, T: Runner<N>, R: TextIn, W: TextOut>(
    alloc: Global,
    line: &mut Pending,
    state: &mut State<N>,
    runner: &mut T,
    reader: &mut R,
    writer: &mut W,
    meter: &mut Meter,
) -> Result<(), BenchFault>
    requires runs { IsRunning (T.plan runner.old) (T.entries runner.old) state.old.scenario }
    requires room { answered state.old.tally ≡ 0 }
    ensures text { MatchResult result
        (λ _. TookIn T.costs N (R.left reader.old) (R.left reader.new) (W.taken writer.old) (W.taken writer.new)
        state.old.scenario (so_far state.old.tally meter.old) line.old state.new.scenario (so_far state.new.tally meter.new) line.new)
        (λ fault. TookPart T.costs N fault (R.left reader.old) (R.left reader.new) (W.taken writer.old) (W.taken writer.new)
        state.old.scenario (so_far state.old.tally meter.old) line.old) }
    ensures counts { CountsFault result (R.failures reader.old) (R.failures reader.new)
        (W.failures writer.old) (W.failures writer.new) }
    ensures runs { IsRunning (T.plan runner.new) (T.entries runner.new) state.new.scenario }
    ensures room { OnOk result (answered state.new.tally ≤ 16777216) }
    ensures rises { meter.old ≤ meter.new }
{
    let mut buffer = [0u8; CHUNK];
    let mut total = 0usize;
    while total <= LIMIT {
        let room = CHUNK.min(LIMIT + 1 - total);
        let Ok(count) = reader.read(&mut buffer[..room]) else {
            return Err(BenchFault::ReadFailed);
        };
        if count == 0 {
            return Ok(());
        }
        total += count;
        let chunk = &buffer[..count];
        feed(alloc, chunk, line, state, runner, writer, meter)?;
    }
    Err(BenchFault::ReaderTooLong)
}

/// Takes in some bytes, and answers the lines that end among them.
fn feed<const N: usize, T: Runner<N>, W: TextOut>(
    alloc: Global,
    chunk: &[u8],
    line: &mut Pending,
    state: &mut State<N>,
    runner: &mut T,
    writer: &mut W,
    meter: &mut Meter,
) -> Result<(), BenchFault>
    requires runs { IsRunning (T.plan runner.old) (T.entries runner.old) state.old.scenario }
    requires room { answered state.old.tally + length chunk.now < 2 ^ 32 }
    ensures text { MatchResult result
        (λ _. Fed T.costs N (W.taken writer.old) (W.taken writer.new) state.old.scenario (so_far state.old.tally meter.old) line.old
        chunk.now state.new.scenario (so_far state.new.tally meter.new) line.new)
        (λ fault. (fault ≡ write_failed)
        × FedPart T.costs N (W.taken writer.old) (W.taken writer.new) state.old.scenario (so_far state.old.tally meter.old) line.old
        chunk.now) }
    ensures counts { CountsFailure (W.failures writer.old) (W.failures writer.new) result }
    ensures runs { IsRunning (T.plan runner.new) (T.entries runner.new) state.new.scenario }
    ensures room { OnOk result (answered state.new.tally ≤ answered state.old.tally + length chunk.now) }
    ensures rises { meter.old ≤ meter.new }
{
    for byte in chunk {
        take_byte(alloc, *byte, line, state, runner, writer, meter)?;
    }
    Ok(())
}

/// Takes in one byte, and answers the line that it ends.
fn take_byte<const N: usize, T: Runner<N>, W: TextOut>(
    alloc: Global,
    byte: u8,
    line: &mut Pending,
    state: &mut State<N>,
    runner: &mut T,
    writer: &mut W,
    meter: &mut Meter,
) -> Result<(), BenchFault>
    requires runs { IsRunning (T.plan runner.old) (T.entries runner.old) state.old.scenario }
    requires room { answered state.old.tally + 1 < 2 ^ 32 }
    ensures text { MatchResult result
        (λ _. Fed T.costs N (W.taken writer.old) (W.taken writer.new) state.old.scenario (so_far state.old.tally meter.old) line.old
        (byte ∷ []) state.new.scenario (so_far state.new.tally meter.new) line.new)
        (λ fault. (fault ≡ write_failed)
        × FedPart T.costs N (W.taken writer.old) (W.taken writer.new) state.old.scenario (so_far state.old.tally meter.old) line.old
        (byte ∷ [])) }
    ensures counts { CountsFailure (W.failures writer.old) (W.failures writer.new) result }
    ensures runs { IsRunning (T.plan runner.new) (T.entries runner.new) state.new.scenario }
    ensures room { answered state.new.tally ≤ answered state.old.tally + 1 }
    ensures rises { meter.old ≤ meter.new }
{
    if byte != b'\n' {
        line.push(byte);
        return Ok(());
    }
    line.end();
    let outcome = answer(alloc, line.as_slice(), state, runner, writer, meter);
    line.clear();
    outcome
}

/// Answers a last line that no line feed ends, and writes the counts.
fn finish<const N: usize, T: Runner<N>, W: TextOut>(
    alloc: Global,
    line: &Pending,
    state: &mut State<N>,
    runner: &mut T,
    writer: &mut W,
    meter: &mut Meter,
) -> Result<(), BenchFault>
    requires runs { IsRunning (T.plan runner.old) (T.entries runner.old) state.old.scenario }
    requires room { answered state.old.tally + 1 < 2 ^ 32 }
    ensures text { MatchResult result
        (λ _. Finished T.costs N (W.taken writer.old) (W.taken writer.new) state.old.scenario (so_far state.old.tally meter.old) line.now
        (so_far state.new.tally meter.new))
        (λ fault. (fault ≡ write_failed)
        × FinishedPart T.costs N (W.taken writer.old) (W.taken writer.new) state.old.scenario (so_far state.old.tally meter.old) line.now) }
    ensures counts { CountsFailure (W.failures writer.old) (W.failures writer.new) result }
    ensures rises { meter.old ≤ meter.new }
{
    if line.is_empty() {
        return write_done(state.tally, writer);
    }
    answer(alloc, line.as_slice(), state, runner, writer, meter)?;
    write_done(state.tally, writer)
}
