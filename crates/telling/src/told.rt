// What a sitting tells, line by line.
ghost use Rattle.std.specs.Prelude.{◌≡◌, true, false, [], ◌∷◌, ◌++◌, IfSome, string_bytes, codes, decimal, OnOk};

use std::alloc::{AllocError, Global};
use std::fmt;

#[derive(Drop)]
pub struct Told {
    pub text: String,
    // Every line was read, and the book taken; there is a text in either case.
    pub sound: bool,
}

impl Told {
    pub fn new(heap: Global) -> Told
        ensures text { string_bytes result.text ≡ [] }
        ensures sound { result.sound ≡ true }
    {
        Told {
            text: String::new(heap),
            sound: true,
        }
    }

    pub fn line<D: fmt::Display + Drop>(&mut self, what: D) -> Result<(), AllocError>
        ensures text { OnOk result (IfSome (D.Display.output what) (λ bs. string_bytes self.new.text ≡ string_bytes self.old.text ++ (bs ++ 10 ∷ []))) }
        ensures sound { self.new.sound ≡ self.old.sound }
    {
        self.text.writeln(what)
    }

    // The command as it was written, and its answer.
    pub fn answer<D: fmt::Display + Drop>(
        &mut self,
        command: &str,
        what: D,
    ) -> Result<(), AllocError>
        ensures text { OnOk result (IfSome (D.Display.output what) (λ bs. string_bytes self.new.text ≡ string_bytes self.old.text ++ (command.now ++ (codes ": " ++ (bs ++ 10 ∷ []))))) }
        ensures sound { self.new.sound ≡ self.old.sound }
    {
        writeln!(self.text, "{command}: {what}")
    }

    // Something is wrong with the sitting itself.
    pub fn fault<D: fmt::Display + Drop>(
        &mut self,
        number: usize,
        what: D,
    ) -> Result<(), AllocError>
        ensures text { OnOk result (IfSome (D.Display.output what) (λ bs. string_bytes self.new.text ≡ string_bytes self.old.text ++ (codes "line " ++ (decimal number ++ (codes ": " ++ (bs ++ 10 ∷ [])))))) }
        ensures sound { self.new.sound ≡ false }
    {
        self.sound = false;
        writeln!(self.text, "line {number}: {what}")
    }
}
