// A run in stretches, each to the end of the pointer's partition.
ghost use Rattle.std.specs.Prelude.{◌≡◌, ◌++◌, ◌+◌, ◌-◌, ◌*◌, ◌≤◌, ◌<◌, length, take, drop};
ghost use Rattle.vram.specs.Serial.{clocks as moved_by, clocked_words};
ghost use Rattle.vram.specs.Calls.{clocks_refusal};
ghost use Rattle.panel.specs.Panel.{shows, bytes_of, shown, zeros, run_bytes};
ghost use Rattle.numbers.specs.Buffer.{over};

use crate::Panel;
use crate::pixels::show_words;
use vram::Vram;

// One stretch after so many clocks: to the end of the partition, or of the run. How many clocks are done then.
fn stretch(panel: Panel, state: Vram, serial: &[u16], clocks: u32, out: &mut [u8], done: u32) -> u32
    requires { (clocks_refusal state clocks ≡ 0) × (length serial.now ≡ 256) × (3 * clocks ≤ length out.old) × (done < clocks) }
    ensures { (done < result) × (result ≤ clocks) × (out.new ≡ take (3 * done) out.old ++ over (bytes_of (shows panel.entry) (clocked_words (result - done) (moved_by done state) serial.now)) (drop (3 * done) out.old)) }
{
    let (here, through) = state.clocks(done).unwrap();
    let count = through.min(clocks - done);
    let from = here.pointer as usize;
    let to = from + count as usize;
    let at = 3 * (done as usize);
    show_words(&serial[from..to], panel, &mut out[at..]);
    done + count
}

// A run that is shown.
fn show(panel: Panel, state: Vram, serial: &[u16], clocks: u32, out: &mut [u8])
    requires { (clocks_refusal state clocks ≡ 0) × (length serial.now ≡ 256) × (3 * clocks ≤ length out.old) }
    ensures { out.new ≡ over (shown (shows panel.entry) clocks state serial.now) out.old }
{
    // Each stretch says how far it went.
    let mut done: u32 = 0;
    while done < clocks {
        done = stretch(panel, state, serial, clocks, out, done);
    }
}

// A run that is blanked: so many zeros.
fn clear(out: &mut [u8], n: usize)
    requires { n ≤ length out.old }
    ensures { out.new ≡ over (zeros n) out.old }
{
    out[..n].fill(0);
}

// The bytes of a run, shown or blanked.
pub(crate) fn run_bytes(
    panel: Panel,
    state: Vram,
    serial: &[u16],
    clocks: u32,
    blank: u32,
    out: &mut [u8],
)
    requires { (clocks_refusal state clocks ≡ 0) × (length serial.now ≡ 256) × (3 * clocks ≤ length out.old) }
    ensures { out.new ≡ over (run_bytes (shows panel.entry) blank clocks state serial.now) out.old }
{
    if blank == 0 {
        show(panel, state, serial, clocks, out);
    } else {
        clear(out, 3 * (clocks as usize));
    }
}
