// A program of nine words with its depth table, worked out by hand.
ghost use Rattle.std.specs.Prelude.{◌≡◌};
ghost use Rattle.job.specs.Examples.{nine_words, nine_table, nine_lines, ThreeIsEnough};

#[derive(Clone, Copy)]
pub struct Example {
    pub words: [u32; 9],
    pub table: [u16; 21],
    pub lines: [u16; 9],
}

// With the vectors 1, 2 and 3 a stack of three words is just enough for it.
#[tactic(auto, using(crate::proofs::Nine::three_is_enough))]
pub fn nine_words() -> Example
    ensures words_value { result.words ≡ nine_words }
    ensures table_value { result.table ≡ nine_table }
    ensures lines_value { result.lines ≡ nine_lines }
    ensures three_is_enough { ThreeIsEnough }
{
    Example {
        // JUMP 4; RETI, RETI, RETI; CALL 6; JUMP 4; PUSH; POP; RET
        words: [
            0x33_FFFB, 0x3F_1FFF, 0x3F_1FFF, 0x3F_1FFF, 0x39_FFF9, 0x33_FFFB, 0x2D_FFFF, 0x3E_BFFF,
            0x3F_3FFF,
        ],
        table: [
            1, 0, 1, 2, 2, 6, 2, 1, 3, 1, 3, 0, 4, 2, 3, 0, 5, 3, 3, 0, 0,
        ],
        lines: [32, 96, 128, 160, 32, 32, 64, 65, 64],
    }
}
