// What follows of the definitions of the text format.
ghost use Rattle.blif_format.specs.Laws.{ReadTextsAreFaultless, WrittenTextsRead};

use rm_model::ranks_exist;

/// A text whose lines say a model, and whose layout has no fault, exceeds a limit at most.
pub fn read_texts_are_faultless()
    ensures { ReadTextsAreFaultless }
{
    ranks_exist();
}

/// The written text of a well-formed model with ranks says that model, and its layout has no fault.
pub fn written_texts_read()
    ensures { WrittenTextsRead }
{}
