// The known dossiers, run through the library: a line for each, its name and its verdict.
#![tactic(auto)]

// Their names and texts, in document 01's order.
const DOSSIERS: [(&str, &str); 18] = [
    (
        "K1",
        "atom\t0\natom\t1\nleft\tsub\t0\t1\nleft\tis\t0\t0\nright\tis\t0\t1\nproof\nsub-l\t0\t0\t1\nid\t0\t1\n",
    ),
    (
        "K2",
        "atom\t0\natom\t1\nleft\tsub\t0\t1\nleft\tis\t0\t0\nright\tis\t0\t1\nproof\nsub-l\t0\t0\t1\n",
    ),
    ("K3", ""),
    (
        "K4",
        "atom\t0\natom\t1\nleft\tsub\t0\t1\nleft\tis\t0\t0\nright\tis\t0\t1\nproof\nid\t0\t1\nid\t0\t1\n",
    ),
    (
        "K5",
        "atom\t0\natom\t1\nleft\tsub\t0\t1\nleft\tis\t0\t0\nright\tis\t0\t1\nproof\nsub-l\t0\t0\t1\nid\t0\t1\nid\t0\t1\n",
    ),
    (
        "K6",
        "atom\t0\nsome\t0\t0\nleft\tis\t0\t1\nright\tis\t0\t0\nproof\nsome-l\t0\t1\t0\n",
    ),
    (
        "K7",
        "atom\t0\nsome\t0\t0\nleft\tis\t0\t1\nright\tis\t0\t0\nmodel\nsize\t2\nname\t0\t0\nhas\t0\t1\nedge\t0\t0\t1\n",
    ),
    (
        "K8",
        "atom\t0\nsome\t0\t0\nleft\tis\t0\t1\nright\tis\t0\t0\nmodel\nsize\t2\nname\t0\t0\nhas\t0\t0\nedge\t0\t0\t1\n",
    ),
    (
        "K9",
        "atom\t0\nsome\t0\t0\nleft\tis\t0\t1\nright\tis\t0\t0\nmodel\nsize\t2\nhas\t0\t1\nedge\t0\t0\t1\n",
    ),
    ("K10", "atom\t0\natom\t0\n"),
    ("K11", "not\t0\n"),
    (
        "K12",
        "atom\t0\nsome\t0\t0\nleft\tlink\t0\t0\t1\nleft\tis\t1\t0\nright\tis\t0\t1\nproof\nsome-r\t0\t1\t1\nid\t1\t0\n",
    ),
    (
        "K13",
        "atom\t0\nnot\t0\nleft\tis\t0\t1\nright\tis\t0\t1\nproof\nid\t0\t1\n",
    ),
    (
        "K14 size 0",
        "atom\t0\nsome\t0\t0\nleft\tis\t0\t1\nright\tis\t0\t0\nmodel\nsize\t0\nname\t0\t0\nhas\t0\t1\nedge\t0\t0\t1\n",
    ),
    (
        "K14 size 33",
        "atom\t0\nsome\t0\t0\nleft\tis\t0\t1\nright\tis\t0\t0\nmodel\nsize\t33\nname\t0\t0\nhas\t0\t1\nedge\t0\t0\t1\n",
    ),
    (
        "K14 size 32",
        "atom\t0\nsome\t0\t0\nleft\tis\t0\t1\nright\tis\t0\t0\nmodel\nsize\t32\nname\t0\t0\nhas\t0\t1\nedge\t0\t0\t1\n",
    ),
    (
        "K15",
        "atom\t0\natom\t1\natom\t2\nnot\t1\nnot\t2\nleft\tsub\t0\t3\nleft\tsub\t2\t1\nleft\tlink\t0\t0\t1\nleft\tis\t0\t0\nright\tis\t0\t4\nproof\nsub-l\t0\t0\t3\nnot-l\t0\t3\nnot-r\t0\t4\nsub-l\t0\t2\t1\nid\t0\t1\n",
    ),
    (
        "K16",
        "atom\t0\nsome\t0\t0\nleft\tis\t0\t1\nright\tis\t1\t0\nproof\nsome-l\t0\t1\t0\n",
    ),
];

// The dossiers, and then two texts of empty lines: one of 65,535 bytes is read, and its first line refused; with one byte more it is too long.
fn main() {
    for (name, text) in DOSSIERS {
        show(name, text.as_bytes());
    }
    let lines = [b'\n'; 65536];
    show("K14 65535 bytes", &lines[..65535]);
    show("K14 65536 bytes", &lines);
}

// Prints a dossier's name and its verdict, by the kit's `io`, which rests on one assumption less than `print!`. Whether they could be written is not looked
// at, since no contract can say that they are.
fn show(name: &str, text: &[u8]) {
    io::write_all(1, name.as_bytes());
    io::write_all(1, b"\t");
    io::write_all(1, report::line_of(verdict::judge_here(text)).as_bytes());
}
