use crate::entry::Entry;

/// A program text that is refused.
pub static ASM: [Entry; 13] = numbered! { "refused ", "asm", "docs/LANGUAGE.md, \"Kinds of fault\"";
    LINE 1: "BadByte: a byte that isn't allowed, not even in a comment",
        "printable ASCII, spaces and tabs; no UTF-8 byte order mark (EF BB BF)",
        "printf 'halt ; caf\\303\\251\\n' | vuthgal";
    LINE 2: "LongLine: the line has more than 256 bytes, with its comment",
        "a shorter comment, or a line of its own for the label",
        "printf '%300s\\n' ';' | vuthgal";
    LINE 3: "UnknownWord: no instruction or directive has this name",
        "an instruction in lower case, a directive, or `NAME:` then a blank",
        "printf 'stop\\n' | vuthgal";
    LINE 4: "OperandCount: too few or too many operands, or arguments of options",
        "as many operands as the instruction or directive has",
        "printf 'ldi r0\\n' | vuthgal";
    LINE 5: "BadRegister: the word isn't a register",
        "r0 to r7, a small r and one digit",
        "printf 'ldi r8 1\\n' | vuthgal";
    LINE 6: "BadNumber: the word isn't a number, or no number follows #",
        "digits, with or without a -, but no +; `mov a b` copies a register",
        "printf 'ldi r0 +5\\n' | vuthgal";
    LINE 7: "OutOfRange: the number is out of range, or has more than ten digits",
        "-2147483648 to 2147483647 for ldi; 0 to 65535 for parties, rows and cells",
        "printf 'ldi r0 2147483648\\n' | vuthgal";
    LINE 8: "BadName: the word isn't a name",
        "1 to 32 letters, digits and _, not a digit first; #5 for row 5",
        "printf 'jmp 5\\n' | vuthgal";
    LINE 9: "UnknownName: nothing of the kind that is needed here has this name",
        "the name of a label, or of a declared phaser, barrier, thread or cell",
        "printf 'jmp nowhere\\n' | vuthgal";
    LINE 10: "NameTwice: an earlier line has defined this name",
        "another name; labels and declared things can't share a name",
        "printf '.cell x\\n.thread x #0\\n' | vuthgal";
    LINE 11: "MisplacedDirective: a directive after a label or an instruction",
        "directives above the first label and instruction",
        "printf 'halt\\n.cell c\\n' | vuthgal";
    LINE 12: "BadOption: .phaser or .barrier can't have this word here",
        "parent P, phase N, one policy, in this order; for a barrier: action L",
        "printf '.barrier b 2 never\\n' | vuthgal";
    LINE 13: "TooMany: the program has too many things of this kind",
        "at most 64 phasers, 64 barriers, 64 threads, 32 cells, 65535 rows",
        "seq -f '.cell c%.0f' 33 | vuthgal";
};
