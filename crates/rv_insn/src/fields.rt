// The fields of an instruction's word.

/// The fields of a word, as the R format has them. In the other formats immediates lie in some of them.
#[derive(Clone, Copy)]
pub struct Fields {
    pub opcode: u32,
    pub rd: u32,
    pub funct3: u32,
    pub rs1: u32,
    pub rs2: u32,
    pub funct7: u32,
}

impl Fields {
    ghost use Rattle.std.specs.Prelude.{ℕ, ◌≡◌, ◌^◌, ◌<◌};
    ghost use Rattle.rv_insn.specs.Word.{fields_of};

    /// The word with these fields, if there is one.
    pub fn word(self) -> u32
        ensures { (word : ℕ) → word < 2 ^ 32 → self ≡ fields_of word → result ≡ word }
    {
        self.opcode
            | self.rd << 7
            | self.funct3 << 12
            | self.rs1 << 15
            | self.rs2 << 20
            | self.funct7 << 25
    }
}
