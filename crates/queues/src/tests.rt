// Scripts with a faulty line: what is answered before it, and what is said of it.
use crate::play::play;
use script::played::Played;
use std::test::Fail;

#[derive(Clone, Copy)]
struct Faulty {
    script: &'static str,
    answers: &'static str,
    message: &'static str,
}

const FAULTY: [Faulty; 14] = [
    Faulty {
        script: "",
        answers: "",
        message: "line 1: `queue`, the first call, is missing at the end of the line",
    },
    Faulty {
        script: "# queue not first\ncount\n",
        answers: "",
        message: "line 2: `count` is not known here; expected queue, before all calls",
    },
    Faulty {
        script: "queue ring 10",
        answers: "",
        message: "line 1: `ring` is not known here; expected slot, packed, quota or tandem",
    },
    Faulty {
        script: "queue slot 40 8",
        answers: "",
        message: "line 1: NOTES of slot is missing at the end of the line",
    },
    Faulty {
        script: "queue tandem packed 10",
        answers: "",
        message: "line 1: a queue is missing at the end of the line",
    },
    Faulty {
        script: "queue tandem tandem tandem packed 9 packed 9 packed 9 packed 9",
        answers: "",
        message: "line 1: tandems nest at most two deep here, and this one would be the third",
    },
    Faulty {
        script: "queue quota 4294967296 packed 10",
        answers: "",
        message: "line 1: Q of quota is 4294967296, but at most 4294967295 is taken",
    },
    Faulty {
        script: "queue packed 10\n\nadd 01\nqueue packed 10\ncount\n",
        answers: "ready\nadded\n",
        message: "line 4: `queue` comes once, before all calls",
    },
    Faulty {
        script: "queue packed 10\npush 01\n",
        answers: "ready\n",
        message: "line 2: `push` is not known here; expected count, largest, room, add, first, read or drop",
    },
    Faulty {
        script: "queue packed 10\nroom\n",
        answers: "ready\n",
        message: "line 2: LENGTH of room is missing at the end of the line",
    },
    Faulty {
        script: "queue packed 10\nadd 01 02\n",
        answers: "ready\n",
        message: "line 2: `02` is a word too many",
    },
    Faulty {
        script: "queue packed 10\nadd 012\n",
        answers: "ready\n",
        message: "line 2: OCTETS of add is `012`, which is not `-` and not octets of two hexadecimal digits each",
    },
    Faulty {
        script: "queue packed 10\nadd 0g\n",
        answers: "ready\n",
        message: "line 2: OCTETS of add is `0g`, which is not `-` and not octets of two hexadecimal digits each",
    },
    Faulty {
        script: "queue packed 10\nread 0 18446744073709551616\n",
        answers: "ready\n",
        message: "line 2: CAPACITY of read is 18446744073709551616, but at most 18446744073709551615 is taken",
    },
];

#[test]
fn faulty_lines(rt: HostRuntime) -> Result<(), Fail> {
    let heap = rt.alloc();
    for faulty in FAULTY {
        let Played { answers, fault } = play(faulty.script.as_bytes(), heap)?;
        assert_eq!(rt; answers.as_slice(), faulty.answers.as_bytes());
        let said = fault.ok_or("no line was found faulty")?.to_string(heap)?;
        assert_eq!(rt; said.as_str(), faulty.message);
    }
    Ok(())
}
