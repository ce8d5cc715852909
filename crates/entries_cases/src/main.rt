// Inputs of the entry listing at its corners, each with what it prints.
#![tactic(auto)]

use entry_write::list::list;
use printed::Output;
use std::io;
use std::io::Write;

fn case(out: &mut Output<impl Write>, name: &[u8], input: &[u8]) {
    out.text(name);
    list(out, input);
}

fn names(out: &mut Output<impl Write>) {
    case(out, b"# empty input\n", b"");
    case(out, b"# names alone\n", b"entry shown written\n");
    case(out, b"# names alone, no newline\n", b"entry shown written");
    case(out, b"# no names\n", b"9 0 10\n");
    case(out, b"# wrong names\n", b"entry written shown\n9 0 10\n");
    case(
        out,
        b"# names and a blank\n",
        b"entry shown written \n9 0 10\n",
    );
    case(out, b"# names cut short\n", b"entry shown writte\n9 0 10\n");
    case(
        out,
        b"# an empty line first\n",
        b"\nentry shown written\n9 0 10\n",
    );
}

fn values(out: &mut Output<impl Write>) {
    case(
        out,
        b"# no last newline\n",
        b"entry shown written\n9 0 10\n10 0 65535",
    );
    case(
        out,
        b"# four values\n",
        b"entry shown written\n9 0 10\n10 0 11 12\n11 0 65535\n",
    );
    case(
        out,
        b"# two values\n",
        b"entry shown written\n9 0\n10 0 65535\n",
    );
    case(
        out,
        b"# two values, no newline\n",
        b"entry shown written\n9 0 10\n10 0",
    );
    case(
        out,
        b"# an empty line\n",
        b"entry shown written\n\n9 0 10\n",
    );
    case(
        out,
        b"# an empty last line\n",
        b"entry shown written\n9 0 10\n\n",
    );
    case(out, b"# no digits\n", b"entry shown written\nx 0 10\n");
    case(
        out,
        b"# a digit and a letter\n",
        b"entry shown written\n9 0 1a\n",
    );
}

fn blanks(out: &mut Output<impl Write>) {
    case(out, b"# a blank first\n", b"entry shown written\n 9 0 10\n");
    case(out, b"# a blank last\n", b"entry shown written\n9 0 10 \n");
    case(out, b"# two blanks\n", b"entry shown written\n9  0 10\n");
    case(out, b"# a tab\n", b"entry shown written\n9\t0 10\n");
    case(
        out,
        b"# a carriage return\n",
        b"entry shown written\n9 0 10\r\n",
    );
}

fn numbers(out: &mut Output<impl Write>) {
    case(
        out,
        b"# entries 65001, 65023 and 65024\n",
        b"entry shown written\n65001 0 2\n65023 0 2\n65024 0 2\n",
    );
    case(
        out,
        b"# written 65535 and 65536\n",
        b"entry shown written\n9 0 65535\n9 65535 65536\n",
    );
    case(
        out,
        b"# shown 65536\n",
        b"entry shown written\n9 65536 10\n",
    );
    case(
        out,
        b"# leading zeros\n",
        b"entry shown written\n0009 00 00000000000000000000010\n",
    );
    case(out, b"# a sign\n", b"entry shown written\n+9 0 10\n");
    case(
        out,
        b"# 9 past 2 to the 16\n",
        b"entry shown written\n65545 0 10\n",
    );
    case(
        out,
        b"# 9 past 2 to the 64\n",
        b"entry shown written\n18446744073709551625 0 10\n",
    );
    case(
        out,
        b"# a huge number\n",
        b"entry shown written\n9 0 99999999999999999999999999999999999999999999\n",
    );
}

fn answers(out: &mut Output<impl Write>) {
    case(
        out,
        b"# nothing differs\n",
        b"entry shown written\n9 10 10\n",
    );
    case(
        out,
        b"# the low 14 bits of FAT[1]\n",
        b"entry shown written\n1 65535 16383\n1 16383 32766\n",
    );
    case(
        out,
        b"# clusters 6 and 7\n",
        b"entry shown written\n6 0 7\n7 0 65528\n7 65528 65527\n7 65528 0\n7 0 0\n",
    );
}

// An input of zeros becomes the names and one line, whose first value has as many leading zeros as fit.
fn lengthen(input: &mut [u8]) {
    let n = input.len();
    if n < 27 {
        return;
    }
    input[..20].copy_from_slice(b"entry shown written\n");
    input[n - 7..n].copy_from_slice(b"9 0 10\n");
}

fn lengths(out: &mut Output<impl Write>) {
    let mut longest = [b'0'; 4096];
    lengthen(&mut longest);
    case(out, b"# 4096 bytes\n", &longest);
    let mut longer = [b'0'; 4097];
    lengthen(&mut longer);
    case(out, b"# 4097 bytes\n", &longer);
}

fn main(rt: HostRuntime) -> io::Result<()> {
    let mut out = Output::new(io::writer(&rt));
    names(&mut out);
    values(&mut out);
    blanks(&mut out);
    numbers(&mut out);
    answers(&mut out);
    lengths(&mut out);
    out.finish()
}
