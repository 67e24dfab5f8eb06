// The eight cycles. `Vram::cycle` tells the kinds apart; each judges what it is given, then its own numbers, then acts. What is given is
// not judged before the kinds are told apart: so a list's choice by the tag and the choice of the kind become one in the machine's code.
// A cycle's numbers go one by one, as a field's body and the definitions have them.
ghost use Rattle.std.specs.Prelude.{◌≡◌, ◌+◌, ◌*◌, ◌/◌, ◌≤◌, true, false, ◌&&◌, length};
ghost use Rattle.numbers.specs.Refuse.{first_of};
ghost use Rattle.words.specs.Bit.{of_bits};
ghost use Rattle.words.specs.Word.{merged, covers, lets};
ghost use Rattle.vram.specs.State.{stop_of, with_colour, with_mask, with_serial, with_stop, other};
ghost use Rattle.vram.specs.Memory.{put, puts, copied};
ghost use Rattle.vram.specs.Board.{board, in_force, allowed};
ghost use Rattle.vram.specs.Refusal.{given};
ghost use Rattle.refusals.specs.Refusal.{write_refusal, load_refusal, full_refusal, split_refusal, stop_refusal};
ghost use Rattle.vram.specs.Calls.{answered_by, answers, outcome, cycle_call, Wrote, Transferred};
ghost use Rattle.vram.specs.declared.Waiting.TheVariants.{None, Tap};
ghost use Rattle.vram.specs.declared.Stop.TheVariants.{Every128};

use crate::memory::{copy, place, write_block, write_word};
use crate::{Cycle, Stop, Vram, Waiting};
use numbers::Refusal;
use refusals::{full_refusal, load_refusal, split_refusal, stop_refusal, write_refusal};

impl Vram {
    // All ones for plain; for masked the register when persistent, else the mask given with the cycle.
    fn in_force(self, masking: u8, mask: u16) -> u16
        ensures { result ≡ in_force self masking mask }
    {
        if masking == 0 {
            return 0xFFFF;
        }
        if self.persistent { self.mask } else { mask }
    }

    // The bits that strobes and mask in force allow.
    fn allowed(self, masking: u8, mask: u16, strobes: u8) -> u16
        ensures { result ≡ of_bits 16 (allowed self masking mask strobes) }
    {
        words::strobe_mask(strobes as u32) & self.in_force(masking, mask)
    }

    // The first place of the half without the pointer.
    fn other_half(self) -> u8
        ensures { (result ≡ 128 * other self.pointer) × (result ≤ 128) }
    {
        if self.pointer < 128 { 128 } else { 0 }
    }

    fn word_write(
        self,
        memory: &mut [u16],
        serial_words: usize,
        row: u16,
        column: u16,
        word: u16,
        masking: u8,
        mask: u16,
        strobes: u8,
    ) -> Result<Vram, Refusal>
        ensures { Wrote (first_of (given self (length memory.old) serial_words) (write_refusal (length memory.old / 512) row column masking mask strobes)) self memory.old (put memory.old (512 * row + column) word (allowed self masking mask strobes)) (answered_by self result) memory.new }
    {
        self.given(memory.len(), serial_words)?;
        write_refusal(memory.len() / 512, row, column, masking, mask, strobes)?;
        let at = place(row as u32, column as u32);
        write_word(memory, at, word, self.allowed(masking, mask, strobes));
        Ok(self)
    }

    fn block_write(
        self,
        memory: &mut [u16],
        serial_words: usize,
        row: u16,
        column: u16,
        columns: u16,
        masking: u8,
        mask: u16,
        strobes: u8,
    ) -> Result<Vram, Refusal>
        ensures { Wrote (first_of (given self (length memory.old) serial_words) (write_refusal (length memory.old / 512) row column masking mask strobes)) self memory.old (puts memory.old (512 * row + 4 * (column / 4)) self.colour (λ j b. lets columns j b && allowed self masking mask strobes b) 4) (answered_by self result) memory.new }
    {
        self.given(memory.len(), serial_words)?;
        write_refusal(memory.len() / 512, row, column, masking, mask, strobes)?;
        let base = place(row as u32, 4 * (column as u32 / 4));
        write_block(
            memory,
            base,
            self.colour,
            columns,
            self.allowed(masking, mask, strobes),
        );
        Ok(self)
    }

    fn load_colour(
        self,
        words: usize,
        serial_words: usize,
        word: u16,
        strobes: u8,
    ) -> Result<Vram, Refusal>
        ensures { answered_by self result ≡ answers (first_of (given self words serial_words) (load_refusal strobes)) self (with_colour self (merged self.colour word (covers strobes))) }
    {
        self.given(words, serial_words)?;
        load_refusal(strobes)?;
        let colour = words::merge(self.colour, word, words::strobe_mask(strobes as u32));
        Ok(Vram { colour, ..self })
    }

    fn load_mask(
        self,
        words: usize,
        serial_words: usize,
        word: u16,
        strobes: u8,
    ) -> Result<Vram, Refusal>
        ensures { answered_by self result ≡ answers (first_of (given self words serial_words) (load_refusal strobes)) self (with_mask self (merged self.mask word (covers strobes)) true) }
    {
        self.given(words, serial_words)?;
        load_refusal(strobes)?;
        let mask = words::merge(self.mask, word, words::strobe_mask(strobes as u32));
        Ok(Vram {
            mask,
            persistent: true,
            ..self
        })
    }

    fn reset_refresh(self, words: usize, serial_words: usize) -> Result<Vram, Refusal>
        ensures { answered_by self result ≡ answers (first_of (given self words serial_words) 0) self (with_stop (with_mask self self.mask false) Every128) }
    {
        self.given(words, serial_words)?;
        Ok(Vram {
            persistent: false,
            stop: Stop::Every128,
            ..self
        })
    }

    fn full_transfer(
        self,
        memory: &[u16],
        serial: &mut [u16],
        row: u16,
        half: u8,
        tap: u8,
    ) -> Result<Vram, Refusal>
        ensures { Transferred (first_of (given self (length memory.now) (length serial.old)) (full_refusal (length memory.now / 512) row half)) self (with_serial self true tap None) serial.old (copied memory.now (512 * row + 256 * half) serial.old 0 256) (answered_by self result) serial.new }
    {
        self.given(memory.len(), serial.len())?;
        full_refusal(memory.len() / 512, row, half)?;
        let from = place(row as u32, 256 * (half as u32));
        copy(memory, from, serial, 0, 256);
        Ok(Vram {
            loaded: true,
            pointer: tap,
            waiting: Waiting::None,
            ..self
        })
    }

    fn split_transfer(
        self,
        memory: &[u16],
        serial: &mut [u16],
        row: u16,
        half: u8,
        tap: u8,
    ) -> Result<Vram, Refusal>
        ensures { Transferred (first_of (given self (length memory.now) (length serial.old)) (split_refusal (length memory.now / 512) self.loaded row half tap)) self (with_serial self self.loaded self.pointer (Tap (128 * other self.pointer + tap))) serial.old (copied memory.now (512 * row + 256 * half + 128 * other self.pointer) serial.old (128 * other self.pointer) 128) (answered_by self result) serial.new }
    {
        self.given(memory.len(), serial.len())?;
        split_refusal(memory.len() / 512, self.loaded, row, half, tap)?;
        let first = self.other_half();
        let to = first as usize;
        let from = place(row as u32, 256 * (half as u32)) + to;
        copy(memory, from, serial, to, 128);
        Ok(Vram {
            waiting: Waiting::Tap(first + tap),
            ..self
        })
    }

    fn stop_points(self, words: usize, serial_words: usize, length: u8) -> Result<Vram, Refusal>
        ensures { answered_by self result ≡ answers (first_of (given self words serial_words) (stop_refusal length)) self (with_stop self (stop_of length)) }
    {
        self.given(words, serial_words)?;
        stop_refusal(length)?;
        Ok(Vram {
            stop: Stop::of(length),
            ..self
        })
    }

    // The only call that performs a cycle: it refuses or performs.
    pub fn cycle(
        self,
        memory: &mut [u16],
        serial: &mut [u16],
        cycle: Cycle,
    ) -> Result<Vram, Refusal>
        ensures { outcome (answered_by self result) memory.new serial.new ≡ cycle_call cycle (board self memory.old serial.old) }
    {
        match cycle {
            Cycle::WordWrite {
                row,
                column,
                word,
                masking,
                mask,
                strobes,
            } => self.word_write(
                memory,
                serial.len(),
                row,
                column,
                word,
                masking,
                mask,
                strobes,
            ),
            Cycle::BlockWrite {
                row,
                column,
                columns,
                masking,
                mask,
                strobes,
            } => self.block_write(
                memory,
                serial.len(),
                row,
                column,
                columns,
                masking,
                mask,
                strobes,
            ),
            Cycle::LoadColour { word, strobes } => self.load_colour(
                memory.len(),
                serial.len(),
                word,
                strobes,
            ),
            Cycle::LoadMask { word, strobes } => self.load_mask(
                memory.len(),
                serial.len(),
                word,
                strobes,
            ),
            Cycle::ResetRefresh => self.reset_refresh(memory.len(), serial.len()),
            Cycle::FullTransfer { row, half, tap } => {
                self.full_transfer(memory, serial, row, half, tap)
            }
            Cycle::SplitTransfer { row, half, tap } => {
                self.split_transfer(memory, serial, row, half, tap)
            }
            Cycle::StopPoints { length } => self.stop_points(memory.len(), serial.len(), length),
        }
    }
}
