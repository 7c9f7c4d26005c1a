//! Cases over small domains; tools/small_cases.py made them and found their ranges by going over all
//! relations.
use super::Texts;

/// Texts, and the low and the high end, in units of the last place of the column; none where no
/// relation is possible.
pub(super) static SMALL: [(Texts<'static>, Option<(i128, i128)>); 30] = [
    (
        (
            "k,cat,ab,bc,ac\nn,int,-2,-1\n",
            "k,n\n",
            "a: k in {ab, ac} and n = -2 => true, 0..1\nb: k in {ab, bc} => true, 0..2\nc: k in {bc, ac} and n <= -2 => true, 0..3\n",
            "sum(n)",
        ),
        Some((-6, 0)),
    ),
    (
        (
            "k,cat,ab,bc,ac\nn,int,-2,1\n",
            "k,n\n",
            "a: k in {ab, ac} => n > -2, 1..1\nb: k in {ab, bc} => n in -1..1, 1..1\nc: k in {bc, ac} => n in -1..1, 1..1\n",
            "sum(n) where n in 1..1",
        ),
        None,
    ),
    (
        (
            "k,cat,ab,bc,ac\nv,dec,1,0.0,1.9\n",
            "k,v\nab,0.2\nbc,0.2\nab,0.9\n",
            "a: k in {ab, ac} => v in 1.8..1.9, 1..1\nb: k in {ab, bc} => true, 0..2\nc: k in {bc, ac} => true, 1..1\n",
            "count",
        ),
        Some((4, 5)),
    ),
    (
        (
            "k,cat,ab,bc,ac,abc\n",
            "k\nbc\nbc\nabc\n",
            "a: k in {ab, ac, abc} => true, 0..1\nb: k in {ab, bc, abc} => true, 0..1\nc: k in {bc, ac, abc} => true, 0..2\n",
            "count where k in {bc, abc}",
        ),
        Some((3, 4)),
    ),
    (
        (
            "k,cat,ab,bc,ac,abc\nv,dec,1,-0.2,0.0\n",
            "k,v\nab,-0.2\n",
            "a: k in {ab, ac, abc} => v in -0.2..0.0, 1..1\nb: k in {ab, bc, abc} => v in -0.2..-0.2, 1..1\nc: k in {bc, ac, abc} => true, 1..1\n",
            "count",
        ),
        Some((2, 2)),
    ),
    (
        (
            "k,cat,ab,bc,ac,abc\nn,dec,2,-0.02,0.12\n",
            "k,n\nac,0.01\n",
            "a: k in {ab, ac, abc} => true, 1..3\nb: k in {ab, bc, abc} => n in 0.12..0.12, 1..3\nc: k in {bc, ac, abc} => true, 1..1\n",
            "sum(n) where n >= 0.12",
        ),
        Some((12, 36)),
    ),
    (
        (
            "k,cat,ab,bc,ac,d\n",
            "k\nac\nab\nac\n",
            "a: k in {ab, ac} => true, 0..2\nb: k in {ab, bc} => true, 0..2\nc: k in {bc, ac} => true, 0..3\nd: k = d => true, 0..3\n",
            "count where k in {ab, d}",
        ),
        Some((1, 6)),
    ),
    (
        (
            "k,cat,ab,bc,ac,d\nm,int,-2,0\n",
            "k,m\nac,0\nac,-2\n",
            "a: k in {ab, ac} => true, 1..1\nb: k in {ab, bc} => true, 1..1\nc: k in {bc, ac} => true, 1..1\nd: k = d => true, 1..1\n",
            "count",
        ),
        None,
    ),
    (
        (
            "k,cat,ab,bc,ac,d\nv,int,-2,12\n",
            "k,v\nac,4\nbc,4\n",
            "a: k in {ab, ac} => true, 0..1\nb: k in {ab, bc} => true, 1..3\nc: k in {bc, ac} => true, 0..1\nd: k = d => true, 0..1\n",
            "sum(v)",
        ),
        Some((2, 44)),
    ),
    (
        (
            "k,cat,ab,bc,ac,cd,d\n",
            "k\ncd\n",
            "a: k in {ab, ac} => true, 0..2\nb: k in {ab, bc} => true, 0..1\nc: k in {bc, ac, cd} => true, 0..1\nd: k in {cd, d} => true, 0..1\n",
            "count where k = bc",
        ),
        Some((0, 1)),
    ),
    (
        (
            "k,cat,ab,bc,ac,cd,d\nn,dec,2,-0.02,-0.01\n",
            "k,n\n",
            "a: k in {ab, ac} and n >= -0.01 => n in -0.01..-0.01, 1..1\nb: k in {ab, bc} => n in -0.01..-0.01, 1..1\nc: k in {bc, ac, cd} => true, 1..1\nd: k in {cd, d} => true, 1..1\n",
            "sum(n)",
        ),
        Some((-5, -2)),
    ),
    (
        (
            "k,cat,ab,bc,ac,cd,d\nv,int,-2,9\n",
            "k,v\nab,6\n",
            "a: k in {ab, ac} => v in 5..9, 1..3\nb: k in {ab, bc} => true, 0..1\nc: k in {bc, ac, cd} => true, 1..1\nd: k in {cd, d} => true, 1..2\n",
            "sum(v)",
        ),
        Some((7, 42)),
    ),
    (
        (
            "k,cat,ab,bc,ac,de,d,e\n",
            "k\n",
            "a: k in {ab, ac} => true, 0..1\nb: k in {ab, bc} => true, 0..2\nc: k in {bc, ac} => true, 0..1\nd: k in {de, d} => true, 0..3\ne: k in {de, e} => true, 0..2\n",
            "count",
        ),
        Some((0, 7)),
    ),
    (
        (
            "k,cat,ab,bc,ac,de,d,e\nm,dec,1,-0.1,0.0\n",
            "k,m\nbc,-0.1\ne,-0.1\nbc,0.0\n",
            "a: k in {ab, ac} => true, 1..1\nb: k in {ab, bc} => true, 1..1\nc: k in {bc, ac} and m = 0.0 => true, 1..1\nd: k in {de, d} => m in -0.1..-0.1, 1..1\ne: k in {de, e} => true, 1..1\n",
            "sum(m)",
        ),
        Some((-5, -4)),
    ),
    (
        (
            "k,cat,ab,bc,ac,de,d,e\nv,dec,2,-0.02,0.07\n",
            "k,v\n",
            "a: k in {ab, ac} => true, 0..1\nb: k in {ab, bc} => v <= 0.04, 0..2\nc: k in {bc, ac} => true, 1..3\nd: k in {de, d} => true, 1..1\ne: k in {de, e} => true, 0..1\n",
            "count",
        ),
        Some((2, 5)),
    ),
    (
        (
            "k,cat,ab,ac,ad,bc,bd,cd\n",
            "k\ncd\nad\nac\n",
            "a: k in {ab, ac, ad} => true, 0..2\nb: k in {ab, bc, bd} => true, 0..2\nc: k in {ac, bc, cd} => true, 0..2\nd: k in {ad, bd, cd} => true, 0..1\n",
            "count",
        ),
        Some((3, 6)),
    ),
    (
        (
            "k,cat,ab,ac,ad,bc,bd,cd\nm,int,-1,0\n",
            "k,m\ncd,-1\nac,0\nad,-1\n",
            "a: k in {ab, ac, ad} => true, 1..1\nb: k in {ab, bc, bd} => true, 1..1\nc: k in {ac, bc, cd} => true, 1..1\nd: k in {ad, bd, cd} => true, 1..1\n",
            "count where k in {ab, ad, bc, bd, cd}",
        ),
        Some((3, 4)),
    ),
    (
        (
            "k,cat,ab,ac,ad,bc,bd,cd\nv,dec,1,0.0,0.9\n",
            "k,v\nad,0.2\nbd,0.6\nab,0.6\n",
            "a: k in {ab, ac, ad} => v in 0.5..0.9, 0..2\nb: k in {ab, bc, bd} => true, 1..1\nc: k in {ac, bc, cd} => true, 0..1\nd: k in {ad, bd, cd} => true, 1..1\n",
            "sum(v)",
        ),
        Some((14, 32)),
    ),
    (
        (
            "k,cat,ab,bc,cd,de,ae\n",
            "k\nbc\ncd\n",
            "a: k in {ab, ae} => true, 0..1\nb: k in {ab, bc} => true, 0..1\nc: k in {bc, cd} => true, 0..1\nd: k in {cd, de} => true, 0..1\ne: k in {de, ae} => true, 0..3\n",
            "count",
        ),
        Some((2, 5)),
    ),
    (
        (
            "k,cat,ab,bc,cd,de,ae\nv,int,1,2\n",
            "k,v\nde,1\nde,2\ncd,2\n",
            "a: k in {ab, ae} => true, 1..1\nb: k in {ab, bc} => v = 2, 1..1\nc: k in {bc, cd} => v in 2..2, 1..1\nd: k in {cd, de} => v in 2..2, 1..1\ne: k in {de, ae} => true, 1..1\n",
            "sum(v) where k in {bc, cd, de, ae}",
        ),
        None,
    ),
    (
        (
            "k,cat,ab,bc,cd,de,ae\nm,int,-2,9\n",
            "k,m\nae,-1\n",
            "a: k in {ab, ae} => true, 1..1\nb: k in {ab, bc} => true, 0..2\nc: k in {bc, cd} => true, 0..2\nd: k in {cd, de} => true, 0..1\ne: k in {de, ae} => true, 0..2\n",
            "count",
        ),
        Some((2, 5)),
    ),
    (
        (
            "k,cat,ab,bc,cd,de,ae,ac\n",
            "k\n",
            "a: k in {ab, ae, ac} => true, 0..1\nb: k in {ab, bc} => true, 0..2\nc: k in {bc, cd, ac} => true, 0..2\nd: k in {cd, de} => true, 0..3\ne: k in {de, ae} => true, 0..1\n",
            "count",
        ),
        Some((0, 4)),
    ),
    (
        (
            "k,cat,ab,bc,cd,de,ae,ac\nv,int,-1,0\n",
            "k,v\nbc,0\nac,0\nab,-1\n",
            "a: k in {ab, ae, ac} => v in 0..0, 1..1\nb: k in {ab, bc} => true, 1..1\nc: k in {bc, cd, ac} => true, 1..1\nd: k in {cd, de} => true, 1..1\ne: k in {de, ae} and v in -1..0 => v >= 0, 1..1\n",
            "sum(v) where v in 0..0",
        ),
        None,
    ),
    (
        (
            "k,cat,ab,bc,cd,de,ae,ac\nn,dec,2,-0.02,0.07\n",
            "k,n\ncd,0.01\n",
            "a: k in {ab, ae, ac} => true, 0..1\nb: k in {ab, bc} => true, 1..1\nc: k in {bc, cd, ac} => true, 0..2\nd: k in {cd, de} => true, 0..1\ne: k in {de, ae} => true, 1..2\n",
            "sum(n)",
        ),
        Some((-5, 22)),
    ),
    (
        (
            "k,cat,ab,ac,ad,ae,bc,bd,be,cd,ce,de\n",
            "k\n",
            "a: k in {ab, ac, ad, ae} => true, 0..1\nb: k in {ab, bc, bd, be} => true, 0..3\nc: k in {ac, bc, cd, ce} => true, 0..1\nd: k in {ad, bd, cd, de} => true, 0..3\ne: k in {ae, be, ce, de} => true, 0..2\n",
            "count where k in {ac, ad, ae, be, ce}",
        ),
        Some((0, 3)),
    ),
    (
        (
            "k,cat,ab,ac,ad,ae,bc,bd,be,cd,ce,de\n",
            "k\nce\nab\n",
            "a: k in {ab, ac, ad, ae} => true, 1..1\nb: k in {ab, bc, bd, be} => true, 1..1\nc: k in {ac, bc, cd, ce} => true, 1..1\nd: k in {ad, bd, cd, de} => true, 1..1\ne: k in {ae, be, ce, de} => true, 1..1\n",
            "count",
        ),
        None,
    ),
    (
        (
            "k,cat,ab,ac,ad,ae,bc,bd,be,cd,ce,de\nn,int,1,6\n",
            "k,n\n",
            "a: k in {ab, ac, ad, ae} => n > 3, 0..1\nb: k in {ab, bc, bd, be} => true, 1..1\nc: k in {ac, bc, cd, ce} => true, 1..3\nd: k in {ad, bd, cd, de} => true, 1..3\ne: k in {ae, be, ce, de} => n in 6..6, 1..2\n",
            "sum(n) where n in 3..6",
        ),
        Some((6, 30)),
    ),
    (
        (
            "k,cat,abc,abd,acd,bcd,ab\n",
            "k\nab\n",
            "a: k in {abc, abd, acd, ab} => true, 0..3\nb: k in {abc, abd, bcd, ab} => true, 0..2\nc: k in {abc, acd, bcd} => true, 0..1\nd: k in {abd, acd, bcd} => true, 0..3\n",
            "count where k in {abc, abd}",
        ),
        Some((0, 2)),
    ),
    (
        (
            "k,cat,abc,abd,acd,bcd,ab\nn,dec,1,-0.2,-0.1\n",
            "k,n\nacd,-0.2\nabc,-0.1\nabc,-0.2\n",
            "a: k in {abc, abd, acd, ab} and n in -0.1..-0.1 => true, 1..1\nb: k in {abc, abd, bcd, ab} => true, 1..1\nc: k in {abc, acd, bcd} => true, 1..1\nd: k in {abd, acd, bcd} => true, 1..1\n",
            "count",
        ),
        Some((5, 5)),
    ),
    (
        (
            "k,cat,abc,abd,acd,bcd,ab\nv,dec,2,0.01,0.12\n",
            "k,v\nacd,0.12\n",
            "a: k in {abc, abd, acd, ab} => true, 1..1\nb: k in {abc, abd, bcd, ab} => v in 0.01..0.01, 1..2\nc: k in {abc, acd, bcd} => true, 1..2\nd: k in {abd, acd, bcd} => true, 1..2\n",
            "count where v > 0.05",
        ),
        Some((1, 2)),
    ),
];
