ghost use Rattle.ld_num.specs.Text.{PrintsNumerals};

/// What is printed of a number is one numeral, of digits, a minus and a period alone, which is read as that number.
#[tactic(auto, using(crate::proofs::Plain::some_printed, crate::proofs::Plain::plain_printed, crate::proofs::Printed::dec_again))]
pub fn print_law()
    ensures { PrintsNumerals }
{}
