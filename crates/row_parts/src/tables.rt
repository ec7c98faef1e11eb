// The designs and converters of the rows, as the bytes of their records. An event -n stands as 256 - n, so that -1 is \xff and -2 is \xfe.

// ---- sides, a line to a state: the label word, the count, 0, and for each transition the event and the target. Bit k of the word is proposition k of the kernel,
// 16 + k of the host and 32 + k of a third side.

// The handshake pair H. s0 has proposition 0 and s1 has 1: each ticks back to itself or sends.
pub const H_KERNEL: [u8; 40] = *b"\
    \x01\0\x02\0\0\0\xff\x01\0\0\0\0\0\0\0\0\0\0\0\0\
    \x02\0\x02\0\0\x01\xfe\0\0\0\0\0\0\0\0\0\0\0\0\0";

// t0 has 18: a tick, or 1 to t1. t1 has 19: 2 to t0.
pub const H_HOST: [u8; 40] = *b"\
    \x04\0\x02\0\0\0\x01\x01\0\0\0\0\0\0\0\0\0\0\0\0\
    \x08\0\x01\0\x02\0\0\0\0\0\0\0\0\0\0\0\0\0\0\0";

// One ticking state.
pub const TICKING: [u8; 20] = *b"\0\0\x01\0\0\0\0\0\0\0\0\0\0\0\0\0\0\0\0\0";

// Two states ticking in turn, with propositions 0 and 1.
pub const TURNS: [u8; 40] = *b"\
    \x01\0\x01\0\0\x01\0\0\0\0\0\0\0\0\0\0\0\0\0\0\
    \x02\0\x01\0\0\0\0\0\0\0\0\0\0\0\0\0\0\0\0\0";

// h0 (1 to h1, 2 to h2), h1 with 16 and h2 with 17, both ticking.
pub const FORK: [u8; 60] = *b"\
    \0\0\x02\0\x01\x01\x02\x02\0\0\0\0\0\0\0\0\0\0\0\0\
    \x01\0\x01\0\0\x01\0\0\0\0\0\0\0\0\0\0\0\0\0\0\
    \x02\0\x01\0\0\x02\0\0\0\0\0\0\0\0\0\0\0\0\0\0";

// Bit 3 set by both sides, which only tick, to and fro: the kernel's lock is held at first (3), the host's menu is open one tick later (19).
pub const LOCK: [u8; 40] = *b"\
    \x08\0\x01\0\0\x01\0\0\0\0\0\0\0\0\0\0\0\0\0\0\
    \0\0\x01\0\0\0\0\0\0\0\0\0\0\0\0\0\0\0\0\0";

pub const MENU: [u8; 40] = *b"\
    \0\0\x01\0\0\x01\0\0\0\0\0\0\0\0\0\0\0\0\0\0\
    \x08\0\x01\0\0\0\0\0\0\0\0\0\0\0\0\0\0\0\0\0";

// One state that ticks or sends 1, one that sends 2 or ticks, and one that sends 3 or ticks.
pub const SENDS_1: [u8; 20] = *b"\0\0\x02\0\0\0\xff\0\0\0\0\0\0\0\0\0\0\0\0\0";

pub const SENDS_2: [u8; 20] = *b"\0\0\x02\0\xfe\0\0\0\0\0\0\0\0\0\0\0\0\0\0\0";

pub const SENDS_3: [u8; 20] = *b"\0\0\x02\0\xfd\0\0\0\0\0\0\0\0\0\0\0\0\0\0\0";

// One state that reads 1 or 2.
pub const READS: [u8; 20] = *b"\0\0\x02\0\x01\0\x02\0\0\0\0\0\0\0\0\0\0\0\0\0";

// ---- formulas, four bytes each: the kind, two operands, 0

// The paper's four rules for H, a line to a rule: AG(not p or not q or AX(r or t)) is the nine formulas not p, not q, their or x, r, t, their or y, AX y, x or AX y,
// and AG of it. The fourth rule ends AX(not 1 or not 18) as printed.
pub const PRINTED: [u8; 144] = *b"\
    \x04\0\0\0\x04\x12\0\0\x06\0\x01\0\x03\x01\0\0\x04\x13\0\0\x06\x03\x04\0\x07\x05\0\0\x06\x02\x06\0\x09\x07\0\0\
    \x04\x13\0\0\x04\x01\0\0\x06\x09\x0a\0\x03\0\0\0\x04\x12\0\0\x06\x0c\x0d\0\x07\x0e\0\0\x06\x0b\x0f\0\x09\x10\0\0\
    \x04\x01\0\0\x04\x12\0\0\x06\x12\x13\0\x03\x13\0\0\x04\0\0\0\x06\x15\x16\0\x07\x17\0\0\x06\x14\x18\0\x09\x19\0\0\
    \x04\0\0\0\x04\x13\0\0\x06\x1b\x1c\0\x04\x01\0\0\x04\x12\0\0\x06\x1e\x1f\0\x07\x20\0\0\x06\x1d\x21\0\x09\x22\0\0";

// The same, the fourth mended: it ends AX(not 1 or 18).
pub const MENDED: [u8; 144] = *b"\
    \x04\0\0\0\x04\x12\0\0\x06\0\x01\0\x03\x01\0\0\x04\x13\0\0\x06\x03\x04\0\x07\x05\0\0\x06\x02\x06\0\x09\x07\0\0\
    \x04\x13\0\0\x04\x01\0\0\x06\x09\x0a\0\x03\0\0\0\x04\x12\0\0\x06\x0c\x0d\0\x07\x0e\0\0\x06\x0b\x0f\0\x09\x10\0\0\
    \x04\x01\0\0\x04\x12\0\0\x06\x12\x13\0\x03\x13\0\0\x04\0\0\0\x06\x15\x16\0\x07\x17\0\0\x06\x14\x18\0\x09\x19\0\0\
    \x04\0\0\0\x04\x13\0\0\x06\x1b\x1c\0\x04\x01\0\0\x03\x12\0\0\x06\x1e\x1f\0\x07\x20\0\0\x06\x1d\x21\0\x09\x22\0\0";

// The formula numbers of the four rules.
pub const FOUR: [u8; 4] = [8, 17, 26, 35];

// True, 1, and A(true U 1).
pub const UNTIL: [u8; 12] = [1, 0, 0, 0, 3, 1, 0, 0, 8, 0, 1, 0];

// True, and A(true U true) 12 times.
pub const UNTILS: [u8; 52] = *b"\x01\0\0\0\
    \x08\0\0\0\x08\0\0\0\x08\0\0\0\x08\0\0\0\
    \x08\0\0\0\x08\0\0\0\x08\0\0\0\x08\0\0\0\
    \x08\0\0\0\x08\0\0\0\x08\0\0\0\x08\0\0\0";

// For the states in turn: true, 0, 1, A(true U 0), A(true U 1), the and of both, and AG of it.
pub const TURNS_ALWAYS: [u8; 28] =
    *b"\x01\0\0\0\x03\0\0\0\x03\x01\0\0\x08\0\x01\0\x08\0\x02\0\x05\x03\x04\0\x09\x05\0\0";

// For the fork: 16, 17, AX 16 and AX 17.
pub const NEXTS: [u8; 16] = [3, 16, 0, 0, 3, 17, 0, 0, 7, 0, 0, 0, 7, 1, 0, 0];

// The same, and (AX 16) or (AX 17).
pub const EITHER: [u8; 20] = [3, 16, 0, 0, 3, 17, 0, 0, 7, 0, 0, 0, 7, 1, 0, 0, 6, 2, 3, 0];

// The same, and (AX 16) and (AX 17).
pub const BOTH: [u8; 20] = [3, 16, 0, 0, 3, 17, 0, 0, 7, 0, 0, 0, 7, 1, 0, 0, 5, 2, 3, 0];

// The same of the fork as a third side, whose labels are 32 and 33: (AX 32) or (AX 33).
pub const THIRD_EITHER: [u8; 20] = [3, 32, 0, 0, 3, 33, 0, 0, 7, 0, 0, 0, 7, 1, 0, 0, 6, 2, 3, 0];

// And (AX 32) and (AX 33).
pub const THIRD_BOTH: [u8; 20] = [3, 32, 0, 0, 3, 33, 0, 0, 7, 0, 0, 0, 7, 1, 0, 0, 5, 2, 3, 0];

// For lock and menu: 3, 19, and AX 19.
pub const LOCK_THEN_MENU: [u8; 12] = [3, 3, 0, 0, 3, 19, 0, 0, 7, 1, 0, 0];

// 19 alone.
pub const MENU_NOW: [u8; 4] = [3, 19, 0, 0];

// 3, and AX 3.
pub const LOCK_NEXT: [u8; 8] = [3, 3, 0, 0, 7, 0, 0, 0];

// ---- converters, a line to a record: the side states, that of a third side that rests last, the count, and for each transition an event for each side, 0 and the
// next record

// Converter F of the handshake pair.
pub const F: [u8; 156] = *b"\
    \0\0\0\x02\x01\0\0\0\x01\0\0\0\0\0\0\0\0\0\0\0\0\0\0\0\0\0\0\0\0\0\0\0\0\0\0\0\0\0\0\0\0\0\0\0\0\0\0\0\0\0\0\0\
    \x01\0\0\x02\x02\xff\0\0\x02\0\0\0\0\0\x01\0\0\0\0\0\0\0\0\0\0\0\0\0\0\0\0\0\0\0\0\0\0\0\0\0\0\0\0\0\0\0\0\0\0\0\0\0\
    \0\x01\0\x02\x01\xfe\0\0\x01\0\0\xfe\0\0\0\0\0\0\0\0\0\0\0\0\0\0\0\0\0\0\0\0\0\0\0\0\0\0\0\0\0\0\0\0\0\0\0\0\0\0\0\0";

// F without (0, 0) in record 0: the kernel can no longer wait.
pub const F_DEAF: [u8; 156] = *b"\
    \0\0\0\x01\x01\0\0\0\x01\0\0\0\0\0\0\0\0\0\0\0\0\0\0\0\0\0\0\0\0\0\0\0\0\0\0\0\0\0\0\0\0\0\0\0\0\0\0\0\0\0\0\0\
    \x01\0\0\x02\x02\xff\0\0\x02\0\0\0\0\0\x01\0\0\0\0\0\0\0\0\0\0\0\0\0\0\0\0\0\0\0\0\0\0\0\0\0\0\0\0\0\0\0\0\0\0\0\0\0\
    \0\x01\0\x02\x01\xfe\0\0\x01\0\0\xfe\0\0\0\0\0\0\0\0\0\0\0\0\0\0\0\0\0\0\0\0\0\0\0\0\0\0\0\0\0\0\0\0\0\0\0\0\0\0\0\0";

// F with (0, -1) to a fourth record as a third transition of record 0.
pub const F_THIRD: [u8; 208] = *b"\
    \0\0\0\x03\x01\0\0\0\x01\0\0\0\0\0\0\0\0\xff\0\0\x03\0\0\0\0\0\0\0\0\0\0\0\0\0\0\0\0\0\0\0\0\0\0\0\0\0\0\0\0\0\0\0\
    \x01\0\0\x02\x02\xff\0\0\x02\0\0\0\0\0\x01\0\0\0\0\0\0\0\0\0\0\0\0\0\0\0\0\0\0\0\0\0\0\0\0\0\0\0\0\0\0\0\0\0\0\0\0\0\
    \0\x01\0\x02\x01\xfe\0\0\x01\0\0\xfe\0\0\0\0\0\0\0\0\0\0\0\0\0\0\0\0\0\0\0\0\0\0\0\0\0\0\0\0\0\0\0\0\0\0\0\0\0\0\0\0\
    \0\x01\0\x02\x01\xfe\0\0\x01\0\0\xfe\0\0\0\0\0\0\0\0\0\0\0\0\0\0\0\0\0\0\0\0\0\0\0\0\0\0\0\0\0\0\0\0\0\0\0\0\0\0\0\0";

// Beside h0: both inputs are enabled.
pub const FORK_OPEN: [u8; 156] = *b"\
    \0\0\0\x02\0\xff\0\0\x01\0\0\xfe\0\0\x02\0\0\0\0\0\0\0\0\0\0\0\0\0\0\0\0\0\0\0\0\0\0\0\0\0\0\0\0\0\0\0\0\0\0\0\0\0\
    \0\x01\0\x01\0\0\0\0\x01\0\0\0\0\0\0\0\0\0\0\0\0\0\0\0\0\0\0\0\0\0\0\0\0\0\0\0\0\0\0\0\0\0\0\0\0\0\0\0\0\0\0\0\
    \0\x02\0\x01\0\0\0\0\x02\0\0\0\0\0\0\0\0\0\0\0\0\0\0\0\0\0\0\0\0\0\0\0\0\0\0\0\0\0\0\0\0\0\0\0\0\0\0\0\0\0\0\0";

// The converter T of lock and menu: both tick, to and fro.
pub const IN_STEP: [u8; 104] = *b"\
    \0\0\0\x01\0\0\0\0\x01\0\0\0\0\0\0\0\0\0\0\0\0\0\0\0\0\0\0\0\0\0\0\0\0\0\0\0\0\0\0\0\0\0\0\0\0\0\0\0\0\0\0\0\
    \x01\x01\0\x01\0\0\0\0\0\0\0\0\0\0\0\0\0\0\0\0\0\0\0\0\0\0\0\0\0\0\0\0\0\0\0\0\0\0\0\0\0\0\0\0\0\0\0\0\0\0\0\0";

// One record for the states that send 1, read, and send 3: a transition for each choice of those that send.
pub const FOUR_CHOICES: [u8; 52] = *b"\0\0\0\x04\
    \0\xff\0\0\0\0\x01\xfe\0\0\0\0\0\xfe\x03\0\0\0\x01\xff\x03\0\0\0\
    \0\0\0\0\0\0\0\0\0\0\0\0\0\0\0\0\0\0\0\0\0\0\0\0";

// The same without the last.
pub const THREE_CHOICES: [u8; 52] = *b"\0\0\0\x03\
    \0\xff\0\0\0\0\x01\xfe\0\0\0\0\0\xfe\x03\0\0\0\0\0\0\0\0\0\
    \0\0\0\0\0\0\0\0\0\0\0\0\0\0\0\0\0\0\0\0\0\0\0\0";

// One record for the three states that send: all eight joint moves.
pub const ALL_EIGHT: [u8; 52] = *b"\0\0\0\x08\
    \0\0\0\0\0\0\x01\0\0\0\0\0\0\x02\0\0\0\0\x01\x02\0\0\0\0\
    \0\0\x03\0\0\0\x01\0\x03\0\0\0\0\x02\x03\0\0\0\x01\x02\x03\0\0\0";

// The same without the last.
pub const SEVEN: [u8; 52] = *b"\0\0\0\x07\
    \0\0\0\0\0\0\x01\0\0\0\0\0\0\x02\0\0\0\0\x01\x02\0\0\0\0\
    \0\0\x03\0\0\0\x01\0\x03\0\0\0\0\x02\x03\0\0\0\0\0\0\0\0\0";
