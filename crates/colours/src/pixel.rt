// One pixel clock: inputs enter, and what entered three clocks before comes out.
ghost use Rattle.std.specs.Prelude.{◌≡◌};
ghost use Rattle.colours.specs.Calls.{shown_by, pixel_call};

use crate::asks::ask;
use crate::{Colours, Inputs, Output};
use numbers::Refusal;

impl Colours {
    // The table is read as the inputs enter, and the output beside the new state is the one that comes out. A refused pixel does not move
    // the pipe.
    #[tactic(auto, unfolding(crate::specs::Calls::pixel_call, crate::specs::Calls::pixel_refusal, crate::specs::Calls::ask_call))]
    pub fn pixel(self, table: &[u16], inputs: Inputs) -> Result<(Colours, Output), Refusal>
        ensures { shown_by self result ≡ pixel_call self table.now inputs }
    {
        self.refusal()?;
        let third = ask(table, inputs)?;
        let state = Colours {
            first: self.second,
            second: self.third,
            third,
            ..self
        };
        Ok((state, self.first))
    }
}
