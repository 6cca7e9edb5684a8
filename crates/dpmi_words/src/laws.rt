// The laws of the words. Each is a function with nothing to do: its contract is the law.
ghost use Rattle.std.specs.Prelude.{◌≡◌, ◌++◌, ◌∷◌, List, false};
ghost use Rattle.dpmi_words.specs.{Reading.{Text, given_by, is_hyphened}, OptionWords.{IsName, option_with_value, option_word_of}};

/// `--name=value` and `--name value` give the same wherever they are, unless the value begins with a hyphen.
#[tactic(auto, using(crate::proofs::EitherWay::either_way))]
pub fn an_option_is_written_either_way()
    ensures { (names operands before after : List Text) (name value : Text) → IsName name → is_hyphened value ≡ false →
        given_by names operands (before ++ option_with_value name value ∷ after)
        ≡ given_by names operands (before ++ option_word_of name ∷ value ∷ after) }
{}
