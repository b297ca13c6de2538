// What `--help` prints.
use super::complaints;
use std::io::Write;

pub fn print(rt: &HostRuntime) {
    let written = rt.stdout().write_all(
        b"duckline: by how much a stadium goes down under its commentator\n\
          \n\
          tools/weave KEY BED | duckline > lines\n\
          tools/weave --bed 5.1 KEY BED | duckline --bed 5.1 > lines\n\
          \n\
          Reads frames from standard input, with fresh settings. A frame is 10 ms: 480 samples of\n\
          the key (the commentator), then 480 of each channel of the bed (the stadium), one channel\n\
          after the other, at 48 kHz, each a 32-bit float, little-endian. tools/weave makes frames\n\
          of two recordings.\n\
          \n\
          --bed LAYOUT says which channels the bed has, in ffmpeg's order, and where they are, in\n\
          degrees to the left:\n\
          \x20 mono    one, at 0, as without --bed: a frame has 3,840 bytes\n\
          \x20 stereo  FL 30, FR -30: 5,760 bytes\n\
          \x20 5.1     FL 30, FR -30, FC 0, LFE, BL 110, BR -110: 13,440 bytes\n\
          \x20 7.1     FL 30, FR -30, FC 0, LFE, BL 135, BR -135, SL 90, SR -90: 17,280 bytes\n\
          The bed's loudness is that of all channels by BS.1770-4; whether it speaks is heard in\n\
          the first.\n\
          \n\
          Writes a line for each frame to standard output, at once:\n\
          \x20 NUMBER STATE KEY BED REDUCTION\n\
          \x20   NUMBER     the frame's, from 1\n\
          \x20   STATE      release (nobody speaks), duck (the key speaks), interview (the bed\n\
          \x20              speaks) or overvoice (both speak)\n\
          \x20   KEY, BED   1 where that strand speaks, 0 where it doesn't\n\
          \x20   REDUCTION  of the bed, in hundredths of a dB: 1335 is 13.35 dB\n\
          \x20 NUMBER refused CODE\n\
          \x20   2  a sample is infinite or not a number\n\
          \x20   4  the frame would lead to such a number\n\
          \x20   5  the counter of onsets of speech is full\n\
          \x20   A refused frame changes nothing: the next one follows the last that was accepted.\n\
          \x20 short COUNT\n\
          \x20   The input ended within a frame, of which it had so many bytes.\n\
          \n\
          -h and --help print this. Any other argument is refused.\n\
          \n\
          An argument that is refused, a read that fails and lines that can't be written (a\n\
          non-blocking output that is full is one) end the program with a line on standard error.\n\
          The exit status says nothing: a run went well where standard error is empty. A pipe\n\
          whose reader is gone ends the program without a word.\n",
    );
    if let Err(why) = written {
        complaints(rt).unwritten(&why);
    }
}
