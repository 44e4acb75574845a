//! The line and the status for words that can't be read.

ghost use Rattle.std.specs.Prelude.{◌≡◌, ◌≤◌};
ghost use Rattle.std.specs.IoError.{error_kind};

use osb_frames::Sink;
use osb_listen::say;
use std::io::{self, ErrorKind};

/// Reports on `errors` why the words couldn't be read, and gives the status that the process ends
/// with: 2 where one of them isn't UTF-8, and 1 where memory was refused. A failed write is passed
/// over.
pub fn words_unread<E: Sink>(error: &io::Error, errors: &mut E) -> u8
    ensures not_utf8 { error_kind error.now ≡ ErrorKind.InvalidData → result ≡ 2 }
    ensures few { result ≤ 2 }
{
    if error.kind() == ErrorKind::InvalidData {
        say(errors, &["osb-broker: the words are not all UTF-8\n"]);
        return 2;
    }
    say(errors, &["osb-broker: out of memory\n"]);
    1
}
