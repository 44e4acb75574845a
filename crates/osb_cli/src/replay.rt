//! `replay`: the bytes of connections, and the replies to them.

ghost use Rattle.std.specs.Prelude.{◌≡◌, ◌∷◌, [], ◌++◌, ℕ, List, map, vec_items, IfErr, IfSome, OnOk};
ghost use Rattle.std.specs.List.{concat};
ghost use Rattle.osb_catalog.specs.Rules.{rules_of};
ghost use Rattle.osb_cli.specs.Files.{AreBytesOfAll};
ghost use Rattle.osb_cli.specs.Inside.{IsOther};
ghost use Rattle.osb_cli.specs.Replay.{IsReplayed};

use crate::fault::Fault;
use crate::files::NamedFiles;
use crate::input::{read_files, read_input};
use crate::output::write;
use crate::per_connection::PerConnection;
use osb_broker::memory;
use osb_catalog::Settings;
use osb_file::FileFault;
use osb_frames::{Sink, Source};
use osb_records::open_memory;
use std::alloc::Global;

/// Writes the outputs one after the other, with nothing between.
fn write_outputs<W: Sink>(outputs: &[Vec<u8>], output: &mut W) -> Result<(), Fault<'static>>
    ensures written { OnOk result (W.taken output.new
        ≡ W.taken output.old ++ concat (map vec_items outputs.now)) }
    ensures other { IfErr result IsOther }
{
    for bytes in outputs {
        write(output, bytes.as_slice())?;
    }
    Ok(())
}

/// Serves each as one connection, from a broker that has no orders yet.
fn serve_connections<W: Sink>(
    alloc: Global,
    settings: &Settings,
    per_connection: PerConnection,
    connections: &[Vec<u8>],
    output: &mut W,
) -> Result<(), Fault<'static>>
    ensures replayed { OnOk result (IsReplayed (rules_of settings.now) per_connection.number
        (map vec_items connections.now) (W.taken output.old) (W.taken output.new)) }
    ensures other { IfErr result IsOther }
{
    let records = open_memory(alloc)?;
    let Ok(mut broker) = memory::new(alloc, settings, records, per_connection.number()) else {
        // No plan is in use in an empty database, so it couldn't be read.
        return Err(Fault::Database(FileFault::Refused));
    };
    let outputs = memory::serve_all(&mut broker, connections)?;
    write_outputs(outputs.as_slice(), output)
}

/// Serves an input as one connection, once it was read to its end.
pub(crate) fn replay_input<R: Source, W: Sink>(
    alloc: Global,
    settings: &Settings,
    per_connection: PerConnection,
    input: &mut R,
    output: &mut W,
) -> Result<(), Fault<'static>>
    ensures replayed { OnOk result ((bytes : List ℕ)
        × IfSome (R.rest input.old) (λ all. all ≡ bytes)
        × IsReplayed (rules_of settings.now) per_connection.number (bytes ∷ [])
        (W.taken output.old) (W.taken output.new)) }
    ensures other { IfErr result IsOther }
{
    let bytes = read_input(alloc, input)?;
    serve_connections(alloc, settings, per_connection, &[bytes], output)
}

/// Serves each file as one connection, once all of them were read.
pub(crate) fn replay_files<'a, F: NamedFiles, W: Sink>(
    alloc: Global,
    files: &F,
    settings: &Settings,
    per_connection: PerConnection,
    names: &[&'a str],
    output: &mut W,
) -> Result<(), Fault<'a>>
    ensures replayed { OnOk result ((read : List (List ℕ))
        × AreBytesOfAll (F.contents files.now) (map (λ it. it.now) names.now) read
        × IsReplayed (rules_of settings.now) per_connection.number read
        (W.taken output.old) (W.taken output.new)) }
    ensures other { IfErr result IsOther }
{
    let connections = read_files(alloc, files, names)?;
    serve_connections(
        alloc,
        settings,
        per_connection,
        connections.as_slice(),
        output,
    )
}
