//! Cases over small domains; tools/small_cases.py made them and found their ranges by going over all
//! relations.
use super::Texts;

/// Texts, and the low and the high end, in units of the last place of the column; none where no
/// relation is possible.
pub(super) static SMALL_MORE: [(Texts<'static>, Option<(i128, i128)>); 30] = [
    (
        (
            "k,cat,a,b,c\nv,dec,2,-0.02,-0.01\n",
            "k,v\n",
            "a: k = a => true, 0..1\nb: k = b => true, 0..3\nc: k = c => true, 0..1\n",
            "count where v in -0.01..-0.01",
        ),
        Some((0, 5)),
    ),
    (
        (
            "k,cat,a,b,c\nm,int,0,3\n",
            "k,m\nb,1\na,2\nc,0\n",
            "a: k = a => true, 1..1\nb: k = b => true, 1..1\nc: k = c => true, 1..1\n",
            "count",
        ),
        Some((6, 6)),
    ),
    (
        (
            "k,cat,a,b,c\nm,dec,1,-1.0,0.9\n",
            "k,m\na,0.4\nc,-0.8\nc,0.5\n",
            "a: k = a and m >= -0.4 => m = 0.7, 1..1\nb: k = b => true, 0..2\nc: k = c => true, 0..1\n",
            "sum(m) where k = a",
        ),
        Some((11, 11)),
    ),
    (
        (
            "k,cat,ab,ac,ad,ae,bc,bd,be,cd,ce,de\nn,int,-1,0\n",
            "k,n\ncd,-1\ncd,-1\n",
            "a: k in {ab, ac, ad, ae} and n in -1..-1 => n in 0..0, 0..1\nb: k in {ab, bc, bd, be} => true, 0..1\nc: k in {ac, bc, cd, ce} => n in 0..0, 0..1\nd: k in {ad, bd, cd, de} => true, 0..1\ne: k in {ae, be, ce, de} => true, 0..1\n",
            "count",
        ),
        Some((2, 6)),
    ),
    (
        (
            "k,cat,ab,ac,ad,ae,bc,bd,be,cd,ce,de\nn,dec,2,-0.03,0.02\n",
            "k,n\nac,0.01\nab,-0.03\nad,0.01\n",
            "a: k in {ab, ac, ad, ae} => true, 0..1\nb: k in {ab, bc, bd, be} => true, 0..1\nc: k in {ac, bc, cd, ce} => true, 0..1\nd: k in {ad, bd, cd, de} => true, 0..1\ne: k in {ae, be, ce, de} => true, 0..1\n",
            "sum(n)",
        ),
        Some((-7, 3)),
    ),
    (
        (
            "k,cat,ab,bc,cd,de,ae\nv,int,-2,1\n",
            "k,v\n",
            "a: k in {ab, ae} => true, 0..1\nb: k in {ab, bc} => true, 0..1\nc: k in {bc, cd} => true, 0..1\nd: k in {cd, de} => true, 0..1\ne: k in {de, ae} => true, 0..1\n",
            "count",
        ),
        Some((0, 2)),
    ),
    (
        (
            "k,cat,ab,bc,cd,de,ae\nn,int,0,11\n",
            "k,n\nbc,1\nab,0\n",
            "a: k in {ab, ae} => n > 2, 0..1\nb: k in {ab, bc} => true, 0..1\nc: k in {bc, cd} => true, 0..1\nd: k in {cd, de} => n >= 3, 0..1\ne: k in {de, ae} => true, 0..1\n",
            "count",
        ),
        Some((2, 4)),
    ),
    (
        (
            "k,cat,ab,ac,ad,bc,bd,cd\nm,dec,2,0.00,0.02\n",
            "k,m\ncd,0.02\ncd,0.02\n",
            "a: k in {ab, ac, ad} and m <= 0.01 => m > 0.00, 0..1\nb: k in {ab, bc, bd} => true, 0..1\nc: k in {ac, bc, cd} and m > 0.01 => true, 0..1\nd: k in {ad, bd, cd} => true, 0..1\n",
            "sum(m)",
        ),
        Some((4, 11)),
    ),
    (
        (
            "k,cat,ab,ac,ad,bc,bd,cd\nn,int,-5,4\n",
            "k,n\n",
            "a: k in {ab, ac, ad} => true, 0..1\nb: k in {ab, bc, bd} and n > 0 => n = -2, 0..1\nc: k in {ac, bc, cd} and n >= 0 => n in 4..4, 0..1\nd: k in {ad, bd, cd} => true, 0..1\n",
            "sum(n)",
        ),
        Some((-10, 4)),
    ),
    (
        (
            "k,cat,ab,bc,cd,de,ae,ac\nm,int,-2,0\n",
            "k,m\nde,0\n",
            "a: k in {ab, ae, ac} => m in -2..-1, 0..1\nb: k in {ab, bc} => true, 0..1\nc: k in {bc, cd, ac} => true, 0..1\nd: k in {cd, de} => m in 0..0, 0..1\ne: k in {de, ae} => true, 0..1\n",
            "count where m = -1",
        ),
        Some((0, 2)),
    ),
    (
        (
            "k,cat,ab,bc,cd,de,ae,ac\nm,int,-5,4\n",
            "k,m\nab,4\n",
            "a: k in {ab, ae, ac} => true, 0..1\nb: k in {ab, bc} => m <= 2, 0..1\nc: k in {bc, cd, ac} => true, 0..1\nd: k in {cd, de} and m > 0 => m = -1, 0..1\ne: k in {de, ae} => true, 0..1\n",
            "sum(m)",
        ),
        Some((-11, 10)),
    ),
    (
        (
            "k,cat,ab,bc,ac,d\n",
            "k\nd\n",
            "a: k in {ab, ac} => true, 1..1\nb: k in {ab, bc} => true, 1..1\nc: k in {bc, ac} => true, 1..1\nd: k = d => true, 0..1\n",
            "count where k in {ab, bc, ac}",
        ),
        None,
    ),
    (
        (
            "k,cat,ab,bc,ac,d\nn,int,-2,2\n",
            "k,n\nab,1\nd,0\nbc,-2\n",
            "a: k in {ab, ac} => n > -1, 1..1\nb: k in {ab, bc} => true, 1..1\nc: k in {bc, ac} and n in 1..2 => true, 1..1\nd: k = d and n in 1..1 => true, 0..1\n",
            "count",
        ),
        Some((5, 6)),
    ),
    (
        (
            "k,cat,ab,bc,ac,d\nv,int,0,14\n",
            "k,v\nac,14\nac,1\nab,2\n",
            "a: k in {ab, ac} => true, 1..1\nb: k in {ab, bc} => v <= 3, 1..1\nc: k in {bc, ac} => true, 1..1\nd: k = d => true, 0..1\n",
            "sum(v) where v > 1",
        ),
        None,
    ),
    (
        (
            "k,cat,ab,bc,ac,de,d,e\n",
            "k\nbc\nde\nd\n",
            "a: k in {ab, ac} => true, 1..1\nb: k in {ab, bc} => true, 1..1\nc: k in {bc, ac} => true, 1..1\nd: k in {de, d} => true, 0..1\ne: k in {de, e} => true, 0..1\n",
            "count",
        ),
        None,
    ),
    (
        (
            "k,cat,ab,bc,ac,de,d,e\nn,int,1,3\n",
            "k,n\n",
            "a: k in {ab, ac} => true, 1..1\nb: k in {ab, bc} => true, 1..1\nc: k in {bc, ac} => n in 3..3, 1..1\nd: k in {de, d} => true, 0..3\ne: k in {de, e} and n >= 2 => n in 3..3, 0..2\n",
            "sum(n)",
        ),
        None,
    ),
    (
        (
            "k,cat,ab,bc,ac,de,d,e\nv,int,0,9\n",
            "k,v\nac,0\n",
            "a: k in {ab, ac} => true, 1..1\nb: k in {ab, bc} => true, 1..1\nc: k in {bc, ac} => true, 1..1\nd: k in {de, d} => v >= 8, 0..1\ne: k in {de, e} => true, 0..3\n",
            "sum(v) where v in 9..9",
        ),
        None,
    ),
    (
        (
            "k,cat,red,blue,green\nn,dec,1,-0.1,0.0\n",
            "k,n\ngreen,0.0\nred,0.0\n",
            "a: k in {blue, green} => true, 0..3\nb: k in {red, blue} => true, 0..2\nc: k in {red, green} => true, 0..1\nd: n > -0.1 => k in {red, blue}, 0..3\n",
            "count where k in {blue, green}",
        ),
        Some((1, 4)),
    ),
    (
        (
            "n,int,-2,0\np,int,-1,1\nm,int,-1,0\n",
            "n,p,m\n-1,-1,-1\n0,0,0\n-2,-1,0\n",
            "a: m in 0..0 => true, 0..1\nb: n in -2..-1 and m in -1..-1 => true, 0..1\nc: p in 1..1 => true, 0..2\nd: n in -2..-1 and p = 1 => true, 0..1\n",
            "sum(m)",
        ),
        Some((-4, -1)),
    ),
    (
        (
            "n,int,0,59\n",
            "n\n",
            "a: n in 45..59 => true, 0..1\nb: n in 10..25 => true, 0..2\nc: n > 11 => n > 55, 0..1\nd: n in 42..54 => true, 0..1\ne: n <= 35 => true, 0..3\n",
            "count where n <= 57",
        ),
        Some((0, 4)),
    ),
    (
        (
            "n,dec,1,-0.1,0.3\np,dec,2,0.01,0.04\nm,int,-2,0\n",
            "n,p,m\n0.2,0.03,-1\n",
            "a: n >= 0.2 => true, 0..1\nb: true => true, 0..2\nc: true => true, 0..2\n",
            "count",
        ),
        Some((1, 3)),
    ),
    (
        (
            "k,cat,red,blue,green,grey,white,black\n",
            "k\nblack\nblack\nwhite\n",
            "a: k in {red, blue, grey, white, black} => true, 0..1\nb: k in {red, green, grey, white} => true, 1..3\nc: true => true, 1..1\n",
            "count",
        ),
        Some((4, 4)),
    ),
    (
        (
            "k,cat,red,blue,green\nx,int,-2,0\ny,dec,2,-0.01,0.00\n",
            "k,x,y\n",
            "a: x in 0..0 => true, 0..2\nb: x = 0 => y > -0.01, 0..1\nc: y in 0.00..0.00 => x in -2..0, 1..1\n",
            "sum(y) where y >= 0.00",
        ),
        Some((0, 0)),
    ),
    (
        (
            "k,cat,red,blue\nn,int,-1,4\np,dec,2,0.01,0.05\n",
            "k,n,p\nblue,3,0.04\n",
            "a: p in 0.04..0.04 => k = blue, 1..1\nb: p >= 0.05 => true, 1..1\n",
            "count",
        ),
        Some((3, 3)),
    ),
    (
        (
            "k,cat,red,blue,green,grey,white\nn,int,-6,5\n",
            "k,n\ngrey,3\nred,4\nblue,1\n",
            "a: n >= -2 => true, 1..1\nb: n >= -4 => true, 0..1\nc: true => k in {red, blue, grey}, 0..2\nd: k in {red, blue, grey, white} => true, 1..3\ne: n = 4 => true, 1..1\n",
            "count",
        ),
        Some((4, 5)),
    ),
    (
        (
            "k,cat,red,blue\nx,int,-2,0\n",
            "k,x\nblue,-2\nred,0\nred,-2\n",
            "a: x = 0 => true, 1..1\nb: x = 0 => k = red, 1..1\nc: k = blue and x in -1..-1 => true, 1..1\nd: k = red => true, 1..1\n",
            "sum(x)",
        ),
        Some((-5, -5)),
    ),
    (
        (
            "k,cat,red,blue,green\nn,dec,2,-0.01,0.01\np,dec,2,0.01,0.02\n",
            "k,n,p\ngreen,-0.01,0.01\ngreen,0.00,0.01\nblue,0.01,0.02\n",
            "a: true => true, 1..1\nb: k = red => true, 1..1\n",
            "sum(p) where k = green",
        ),
        Some((2, 2)),
    ),
    (
        (
            "x,int,0,59\n",
            "x\n20\n",
            "a: x >= 46 => x >= 58, 1..1\nb: x = 1 => true, 2..2\nc: x = 45 => true, 1..1\n",
            "count",
        ),
        Some((5, 5)),
    ),
    (
        (
            "k,cat,red,blue,green,grey,white\nn,int,1,12\n",
            "k,n\nblue,10\nwhite,7\nred,1\n",
            "a: k in {red, blue, green, grey} and n > 6 => true, 2..2\nb: n >= 6 => true, 1..1\nc: k = green => k = blue, 1..1\n",
            "count where k in {red, green}",
        ),
        None,
    ),
    (
        (
            "k,cat,red,blue,green\nx,dec,2,-0.03,0.02\n",
            "k,x\nblue,-0.01\n",
            "a: x = 0.00 => x > -0.03, 0..1\nb: true => true, 1..3\nc: x in 0.02..0.02 => true, 1..3\nd: k = green => true, 1..2\n",
            "count where k in {red, blue}",
        ),
        Some((1, 3)),
    ),
];
