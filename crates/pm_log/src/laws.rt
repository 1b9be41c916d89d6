//! The laws of logs, over nothing but definitions: of transcripts, and of whole texts.

ghost use Rattle.pm_log.specs.Checks.{LogsAreTranscripts};
ghost use Rattle.pm_log.specs.Laws.{LogsAreChecked};

use pm_host::transcripts_are_followed;
use pm_table::{cells_are_told_apart, cells_have_places};

/// A text that is accepted is read line by line, and each claim in it is one that [`check`](crate::check) accepts by the acts
/// that the lines before it are, from the last head on. It says that the part lacks no other registers than the receiver lets it lack,
/// and the part answered for none of them since that head. A claim that isn't accepted says more than that, or is the one that `check`
/// names. The verdict names each register that an accepted claim says to be lacking, and no other.
pub fn logs_are_checked()
    ensures { LogsAreChecked }
{
    cells_are_told_apart();
    cells_have_places();
    transcripts_are_followed();
}

/// What a replay of a log holds is what a host holds after the transcript that the log says, and that transcript might come.
pub fn logs_are_transcripts()
    ensures { LogsAreTranscripts }
{
    transcripts_are_followed();
}
