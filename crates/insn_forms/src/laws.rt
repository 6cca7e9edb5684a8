// What holds of every instruction that bytes encode.
ghost use Rattle.insn_forms.specs.{Grammar.{IsInsn}, Kinds.{IsWellFormed}, declared.insn.Insn.{Insn as AnInsn}};

/// Every instruction that bytes encode has the operands, the width and the numbers of its operation. Source: own.
pub fn every_instruction_is_well_formed()
    ensures { (insn : AnInsn) → IsInsn insn → IsWellFormed insn }
{}
