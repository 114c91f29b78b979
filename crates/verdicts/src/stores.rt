// What no job can say: the gate over each make of store, lines that are not as many as the words, and what a refusal carries.
use crate::opcodes::*;
use admission::{Breach, Fault, LineRule, Rule, admit};
use job::nine_words;
use platform::{ByteStore, CoreDescription, JoinedStore, WordStore};
use words::DecodeError;

const DESCRIPTION: CoreDescription = CoreDescription {
    depth: 3,
    vectors: [1, 2, 3],
};

// The last five of the nine words: CALL 6; JUMP 4; PUSH; POP; RET.
const LAST_WORDS: [u8; 15] = [
    0x39, 0xFF, 0xF9, 0x33, 0xFF, 0xFB, 0x2D, 0xFF, 0xFF, 0x3E, 0xBF, 0xFF, 0x3F, 0x3F, 0xFF,
];

#[test]
fn the_sample_is_admitted_from_each_store(rt: HostRuntime) {
    let example = nine_words();
    let words = WordStore::new(&example.words);
    let first = WordStore::new(&example.words[..4]);
    let joined = JoinedStore::new(first, ByteStore::new(&LAST_WORDS));
    assert_eq!(rt;
        admit(DESCRIPTION, &words, &example.table, &example.lines),
        Ok(3)
    );
    assert_eq!(rt;
        admit(DESCRIPTION, &joined, &example.table, &example.lines),
        Ok(3)
    );
}

#[test]
fn each_word_has_one_line(rt: HostRuntime) {
    let example = nine_words();
    let store = WordStore::new(&example.words);
    let ten = [32, 96, 128, 160, 32, 32, 64, 65, 64, 0];
    let sizes = Err(Fault {
        breach: Breach::Broken(Rule::Sizes),
        place: 0,
    });
    for lines in [&example.lines[..8], &[], &ten] {
        assert_eq!(rt; admit(DESCRIPTION, &store, &example.table, lines), sizes);
    }
}

#[test]
fn a_reserved_word_is_refused_with_the_decoders_refusal(rt: HostRuntime) {
    let example = nine_words();
    for (word, breach) in [
        (RESERVED, Breach::Undefined(DecodeError::Reserved)),
        (CALLS_6, Breach::Broken(Rule::Line(LineRule::Word))),
    ] {
        let mut words = example.words;
        words[5] = word;
        let answer = admit(
            DESCRIPTION,
            &WordStore::new(&words),
            &example.table,
            &example.lines,
        );
        assert_eq!(rt; answer, Err(Fault { breach, place: 5 }));
    }
}
