// The tags that the code names, under Rodin's names; `specs/Operators.antt` has them for the definitions.
// Kept: numbers and no enum, since a frame has a node's tag as a number and the definitions go by it, most of them by ranges: each of
// the listed tags would stand once more in a match from numbers to cases, which every head that is read would go through. The tables of
// `tags` and `type_rules` go by the same numbers.

pub const FREE_IDENT: usize = 1;

pub const BOUND_IDENT: usize = 3;

pub const SETEXT: usize = 5;

pub const EQUAL: usize = 101;

pub const LT: usize = 103;

pub const LE: usize = 104;

pub const GT: usize = 105;

pub const GE: usize = 106;

pub const IN: usize = 107;

pub const SUBSETEQ: usize = 111;

pub const MAPSTO: usize = 201;

pub const SREL: usize = 204;

pub const STREL: usize = 205;

pub const SETMINUS: usize = 213;

pub const CPROD: usize = 214;

pub const DPROD: usize = 215;

pub const PPROD: usize = 216;

pub const DOMRES: usize = 217;

pub const DOMSUB: usize = 218;

pub const RANRES: usize = 219;

pub const RANSUB: usize = 220;

pub const UPTO: usize = 221;

pub const RELIMAGE: usize = 227;

pub const LIMP: usize = 251;

pub const LEQV: usize = 252;

pub const BUNION: usize = 301;

pub const BINTER: usize = 302;

pub const BCOMP: usize = 303;

pub const FCOMP: usize = 304;

pub const OVR: usize = 305;

pub const LAND: usize = 351;

pub const LOR: usize = 352;

pub const INTEGER: usize = 401;

pub const NATURAL: usize = 402;

pub const NATURAL1: usize = 403;

pub const BOOL: usize = 404;

pub const TRUE: usize = 405;

pub const FALSE: usize = 406;

pub const EMPTYSET: usize = 407;

pub const KPRJ1_GEN: usize = 410;

pub const KPRJ2_GEN: usize = 411;

pub const KID_GEN: usize = 412;

pub const BTRUE: usize = 610;

pub const BFALSE: usize = 611;

pub const FINITE: usize = 620;

pub const NOT: usize = 701;

pub const POW: usize = 752;

pub const POW1: usize = 753;

pub const KUNION: usize = 754;

pub const KINTER: usize = 755;

pub const KDOM: usize = 756;

pub const KRAN: usize = 757;

pub const CONVERSE: usize = 763;

pub const QUNION: usize = 801;

pub const QINTER: usize = 802;

pub const CSET: usize = 803;

pub const FORALL: usize = 851;

pub const EXISTS: usize = 852;

pub const PARTITION: usize = 901;
