// What holds of all encodings.
ghost use Rattle.std.specs.Prelude.{◌≡◌, ◌≤◌, ◌↔◌, List, ℕ, ◌++◌, [], Bool, length, take};
ghost use Rattle.insn_forms.specs.{Grammar.{AllBytes, Encoding, HasEncoding, BeginsEncoding}, declared.insn.Insn.{Insn as AnInsn}};
ghost use Rattle.insn_decode.specs.{Decode.{decoded}, declared.decoding.Decoded.TheVariants.{Whole, More, Invalid}};

/// Bytes encode at most one instruction, and no encoding begins another.
/// Source: own, of 80386 Programmer's Reference Manual, ch. 17 and appendix A.
pub fn an_encoding_is_of_one_instruction()
    ensures one { (big : Bool) (a b : AnInsn) (bytes : List ℕ) →
        Encoding big a bytes → Encoding big b bytes → a ≡ b }
    ensures none_longer { (big : Bool) (a b : AnInsn) (bytes tail : List ℕ) →
        Encoding big a bytes → Encoding big b (bytes ++ tail) → tail ≡ [] }
{}

/// Reading bytes from left to right, however many they are, is the grammar.
/// Source: own, of 80386 Programmer's Reference Manual, ch. 17 and appendix A.
pub fn reading_is_the_grammar()
    ensures whole { (big : Bool) (bytes : List ℕ) (insn : AnInsn) (len : ℕ) → AllBytes bytes →
        decoded big bytes ≡ Whole insn len → Encoding big insn (take len bytes) × (len ≤ length bytes) }
    ensures only { (big : Bool) (insn : AnInsn) (front rest : List ℕ) →
        Encoding big insn front → decoded big (front ++ rest) ≡ Whole insn (length front) }
    ensures more { (big : Bool) (bytes : List ℕ) → AllBytes bytes →
        (decoded big bytes ≡ More ↔ BeginsEncoding big bytes) }
    ensures invalid { (big : Bool) (bytes : List ℕ) → AllBytes bytes →
        (decoded big bytes ≡ Invalid ↔ (¬ HasEncoding big bytes × ¬ BeginsEncoding big bytes)) }
{}
