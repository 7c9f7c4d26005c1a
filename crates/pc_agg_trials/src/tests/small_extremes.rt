//! Cases over small domains; tools/small_cases.py made them and found their ranges by going over all
//! relations.
use super::Texts;
use super::truths::Truth;

/// Texts, and what is true of the least or the greatest number, in units of the last place of the column.
pub(super) static SMALL_EXTREMES: [(Texts<'static>, Truth); 40] = [
    (
        (
            "k,cat,ab,bc,ac\nn,int,0,3\n",
            "k,n\nab,1\nac,3\n",
            "a: k in {ab, ac} => true, 1..3\nb: k in {ab, bc} and n in 2..3 => true, 0..1\nc: k in {bc, ac} => true, 1..2\n",
            "min(n)",
        ),
        Truth::Never(0, 1),
    ),
    (
        (
            "k,cat,ab,bc,ac\nm,dec,1,-0.2,0.3\n",
            "k,m\nab,0.0\nac,-0.2\nbc,-0.1\n",
            "a: k in {ab, ac} => m in 0.1..0.3, 1..1\nb: k in {ab, bc} and m = 0.2 => true, 1..1\nc: k in {bc, ac} => true, 1..1\n",
            "max(m) where m > -0.1",
        ),
        Truth::Never(2, 3),
    ),
    (
        (
            "k,cat,red,blue,green\nn,int,0,5\n",
            "k,n\n",
            "a: true => k = blue, 1..3\nb: k = blue => true, 1..3\nc: k in {red, blue} => true, 0..1\n",
            "min(n)",
        ),
        Truth::Never(0, 5),
    ),
    (
        (
            "k,cat,ab,bc,ac,abc\nm,dec,1,-0.2,0.1\n",
            "k,m\n",
            "a: k in {ab, ac, abc} => m = 0.0, 0..3\nb: k in {ab, bc, abc} => m = -0.2, 0..1\nc: k in {bc, ac, abc} => true, 0..1\n",
            "max(m)",
        ),
        Truth::Sometimes(-2, 0),
    ),
    (
        (
            "k,cat,ab,bc,ac,abc\nn,dec,1,0.1,0.4\n",
            "k,n\nab,0.2\nab,0.4\n",
            "a: k in {ab, ac, abc} and n >= 0.4 => true, 0..1\nb: k in {ab, bc, abc} => n > 0.2, 0..1\nc: k in {bc, ac, abc} => true, 0..2\n",
            "min(n) where k in {ab, ac, abc}",
        ),
        Truth::Never(1, 2),
    ),
    (
        (
            "k,cat,ab,bc,ac\nm,dec,2,0.00,0.03\n",
            "k,m\nac,0.01\n",
            "a: k in {ab, ac} => true, 0..2\nb: k in {ab, bc} => m in 0.02..0.03, 1..1\nc: k in {bc, ac} => m = 0.03, 0..2\n",
            "max(m)",
        ),
        Truth::Never(2, 3),
    ),
    (
        (
            "k,cat,red,blue,green\nn,int,1,6\n",
            "k,n\n",
            "a: n = 5 => true, 1..1\nb: n in 6..6 => true, 0..1\nc: k = green and n <= 3 => true, 1..3\n",
            "min(n)",
        ),
        Truth::Never(1, 3),
    ),
    (
        (
            "k,cat,ab,bc,ac,abc\nn,dec,2,-0.02,0.00\n",
            "k,n\n",
            "a: k in {ab, ac, abc} => true, 1..2\nb: k in {ab, bc, abc} => true, 0..2\nc: k in {bc, ac, abc} => true, 1..2\n",
            "max(n) where k in {ac, abc}",
        ),
        Truth::Sometimes(-2, 0),
    ),
    (
        (
            "k,cat,red,blue,green\nx,dec,2,-0.01,0.04\n",
            "k,x\n",
            "a: k in {red, blue} and x in 0.01..0.02 => x in -0.01..-0.01, 0..1\nb: k = red => true, 0..1\n",
            "min(x) where x = 0.01",
        ),
        Truth::Always,
    ),
    (
        (
            "k,cat,ab,bc,ac\nm,int,0,5\n",
            "k,m\n",
            "a: k in {ab, ac} => true, 1..1\nb: k in {ab, bc} => m > 3, 1..1\nc: k in {bc, ac} => true, 1..1\n",
            "max(m) where m in 4..5",
        ),
        Truth::Impossible,
    ),
    (
        (
            "k,cat,ab,bc,ac,abc\nm,dec,1,0.1,0.3\n",
            "k,m\nabc,0.3\nab,0.2\n",
            "a: k in {ab, ac, abc} => m > 0.1, 1..1\nb: k in {ab, bc, abc} and m in 0.3..0.3 => true, 1..2\nc: k in {bc, ac, abc} => true, 1..3\n",
            "max(m) where k in {ab, bc}",
        ),
        Truth::Never(2, 3),
    ),
    (
        (
            "k,cat,ab,bc,ac\nn,int,-2,0\n",
            "k,n\nab,0\n",
            "a: k in {ab, ac} => true, 2..2\nb: k in {ab, bc} => n in -2..-1, 1..1\nc: k in {bc, ac} => true, 1..1\n",
            "min(n)",
        ),
        Truth::Never(-2, -1),
    ),
    (
        (
            "k,cat,ab,bc,ac\nn,int,-2,0\n",
            "k,n\nac,0\n",
            "a: k in {ab, ac} and n >= -1 => true, 1..1\nb: k in {ab, bc} => true, 1..1\nc: k in {bc, ac} => true, 1..1\n",
            "max(n) where k in {ab, bc}",
        ),
        Truth::Never(-2, 0),
    ),
    (
        (
            "k,cat,ab,bc,ac,abc\nm,int,0,3\n",
            "k,m\n",
            "a: k in {ab, ac, abc} and m >= 1 => true, 0..3\nb: k in {ab, bc, abc} => m in 0..1, 0..1\nc: k in {bc, ac, abc} => true, 0..3\n",
            "min(m)",
        ),
        Truth::Sometimes(0, 3),
    ),
    (
        (
            "k,cat,ab,bc,ac,abc\nm,int,1,3\n",
            "k,m\nac,3\nab,2\n",
            "a: k in {ab, ac, abc} => true, 0..2\nb: k in {ab, bc, abc} => m > 1, 0..2\nc: k in {bc, ac, abc} and m >= 3 => m >= 3, 1..2\n",
            "max(m) where k = ab",
        ),
        Truth::Never(2, 3),
    ),
    (
        (
            "k,cat,red,blue\nn,dec,2,0.00,0.02\n",
            "k,n\nblue,0.02\n",
            "a: n in 0.02..0.02 => n >= 0.02, 2..2\nb: k = blue => true, 1..1\nc: n = 0.01 => true, 1..1\n",
            "min(n)",
        ),
        Truth::Never(0, 1),
    ),
    (
        (
            "k,cat,ab,bc,ac\nn,dec,2,0.00,0.02\n",
            "k,n\n",
            "a: k in {ab, ac} => n in 0.01..0.02, 1..1\nb: k in {ab, bc} => true, 1..1\nc: k in {bc, ac} => true, 2..2\n",
            "max(n)",
        ),
        Truth::Never(1, 2),
    ),
    (
        (
            "k,cat,ab,bc,ac\nm,dec,1,0.1,0.4\n",
            "k,m\n",
            "a: k in {ab, ac} => true, 0..1\nb: k in {ab, bc} => true, 0..1\nc: k in {bc, ac} and m <= 0.2 => m in 0.1..0.3, 0..1\n",
            "min(m)",
        ),
        Truth::Sometimes(1, 4),
    ),
    (
        (
            "k,cat,ab,bc,ac,abc\nv,dec,1,-0.2,0.0\n",
            "k,v\n",
            "a: k in {ab, ac, abc} => true, 1..3\nb: k in {ab, bc, abc} => v in -0.2..-0.2, 0..2\nc: k in {bc, ac, abc} => v in 0.0..0.0, 1..2\n",
            "max(v) where k = bc",
        ),
        Truth::Always,
    ),
    (
        (
            "k,cat,ab,bc,ac\nv,dec,2,-0.02,0.03\n",
            "k,v\nac,-0.02\nbc,0.00\n",
            "a: k in {ab, ac} => true, 1..1\nb: k in {ab, bc} => true, 1..1\nc: k in {bc, ac} => v in -0.01..0.02, 1..1\n",
            "min(v) where v <= 0.02",
        ),
        Truth::Impossible,
    ),
    (
        (
            "k,cat,ab,bc,ac\nv,int,-2,1\n",
            "k,v\nac,-1\nac,1\nbc,0\n",
            "a: k in {ab, ac} => true, 1..1\nb: k in {ab, bc} => true, 1..2\nc: k in {bc, ac} => v in -2..1, 0..1\n",
            "min(v)",
        ),
        Truth::Never(-2, -1),
    ),
    (
        (
            "k,cat,ab,bc,ac\nn,dec,2,-0.02,0.01\n",
            "k,n\nbc,-0.02\nab,-0.01\nbc,0.01\n",
            "a: k in {ab, ac} => n > -0.01, 1..1\nb: k in {ab, bc} => true, 1..1\nc: k in {bc, ac} => true, 0..2\n",
            "max(n) where k in {ab, ac}",
        ),
        Truth::Never(0, 1),
    ),
    (
        (
            "k,cat,red,blue,green\nx,int,-1,1\ny,int,1,2\n",
            "k,x,y\n",
            "a: k in {red, green} and y >= 2 => true, 0..1\nb: k = red and y > 1 => true, 1..3\nc: true => true, 1..3\n",
            "min(y) where k in {red, blue}",
        ),
        Truth::Never(1, 2),
    ),
    (
        (
            "k,cat,red,blue,green\nn,int,-1,1\np,dec,2,0.01,0.02\n",
            "k,n,p\n",
            "a: p = 0.02 => true, 0..2\nb: k = green and n > -1 => true, 1..3\n",
            "max(n) where p in 0.02..0.02",
        ),
        Truth::Sometimes(-1, 1),
    ),
    (
        (
            "k,cat,ab,bc,ac,abc\nm,int,-2,1\n",
            "k,m\nac,0\nabc,0\nbc,-1\n",
            "a: k in {ab, ac, abc} => true, 0..2\nb: k in {ab, bc, abc} => true, 0..2\nc: k in {bc, ac, abc} => m in -2..1, 0..1\n",
            "min(m)",
        ),
        Truth::Never(-2, -1),
    ),
    (
        (
            "k,cat,ab,bc,ac\nn,int,1,6\n",
            "k,n\nbc,3\n",
            "a: k in {ab, ac} => n >= 5, 1..1\nb: k in {ab, bc} and n <= 3 => true, 1..1\nc: k in {bc, ac} => true, 1..1\n",
            "max(n)",
        ),
        Truth::Never(5, 6),
    ),
    (
        (
            "k,cat,ab,bc,ac\nm,int,1,4\n",
            "k,m\nbc,1\n",
            "a: k in {ab, ac} => true, 1..1\nb: k in {ab, bc} => m in 2..3, 1..1\nc: k in {bc, ac} => true, 0..1\n",
            "min(m) where k = ab",
        ),
        Truth::Never(2, 3),
    ),
    (
        (
            "x,dec,2,0.01,0.03\ny,int,-1,1\nz,int,-1,0\n",
            "x,y,z\n",
            "a: z in 0..0 => true, 0..2\nb: x = 0.03 => true, 0..1\nc: y in -1..1 => true, 0..2\n",
            "max(z)",
        ),
        Truth::Sometimes(-1, 0),
    ),
    (
        (
            "k,cat,red,blue,green\nn,dec,1,0.0,0.5\n",
            "k,n\nblue,0.5\ngreen,0.4\nblue,0.3\n",
            "a: k = blue => k in {red, green}, 0..2\nb: n <= 0.3 => n in 0.5..0.5, 0..1\n",
            "min(n) where k = red",
        ),
        Truth::Always,
    ),
    (
        (
            "n,dec,1,-0.3,0.2\n",
            "n\n-0.1\n",
            "a: n <= 0.1 => true, 1..1\nb: n in -0.2..0.2 => true, 1..1\nc: n in -0.2..0.2 => n = -0.3, 1..1\n",
            "max(n) where n in 0.0..0.0",
        ),
        Truth::Impossible,
    ),
    (
        (
            "k,cat,ab,bc,ac,abc\nv,dec,1,0.1,0.4\n",
            "k,v\nabc,0.3\nac,0.1\n",
            "a: k in {ab, ac, abc} => true, 0..1\nb: k in {ab, bc, abc} and v in 0.3..0.3 => true, 0..3\nc: k in {bc, ac, abc} => true, 0..2\n",
            "max(v)",
        ),
        Truth::Never(3, 4),
    ),
    (
        (
            "k,cat,ab,bc,ac\nm,int,-2,3\n",
            "k,m\nac,3\nac,0\n",
            "a: k in {ab, ac} and m in -2..1 => true, 1..1\nb: k in {ab, bc} => true, 1..1\nc: k in {bc, ac} => m in -2..-1, 1..1\n",
            "min(m)",
        ),
        Truth::Never(-2, -1),
    ),
    (
        (
            "n,int,0,2\np,dec,1,0.0,0.2\nm,int,-1,0\n",
            "n,p,m\n",
            "a: true => n in 2..2, 1..1\nb: n in 2..2 and m > -1 => true, 1..3\nc: m = -1 => p = 0.1, 0..2\n",
            "max(p)",
        ),
        Truth::Never(0, 2),
    ),
    (
        (
            "k,cat,ab,bc,ac,abc\nm,dec,1,-0.2,0.1\n",
            "k,m\n",
            "a: k in {ab, ac, abc} => true, 0..1\nb: k in {ab, bc, abc} => true, 0..1\nc: k in {bc, ac, abc} => m >= 0.0, 0..3\n",
            "min(m) where m in 0.0..0.1",
        ),
        Truth::Sometimes(0, 1),
    ),
    (
        (
            "k,cat,red,blue\nn,dec,1,0.0,0.2\n",
            "k,n\nred,0.1\nblue,0.1\nblue,0.0\n",
            "a: true => true, 2..2\nb: k = blue => true, 1..1\nc: k = blue => n = 0.0, 1..1\n",
            "max(n) where n >= 0.1",
        ),
        Truth::Never(1, 2),
    ),
    (
        (
            "k,cat,ab,bc,ac\nn,dec,1,-0.2,0.3\n",
            "k,n\nbc,0.2\nac,-0.2\nac,0.1\n",
            "a: k in {ab, ac} => n in -0.2..0.1, 1..1\nb: k in {ab, bc} and n = 0.0 => true, 1..1\nc: k in {bc, ac} => true, 1..1\n",
            "min(n) where k in {ab, bc}",
        ),
        Truth::Never(-2, 0),
    ),
    (
        (
            "k,cat,ab,bc,ac\nn,dec,1,0.0,0.3\n",
            "k,n\n",
            "a: k in {ab, ac} => n > 0.0, 0..2\nb: k in {ab, bc} => true, 0..2\nc: k in {bc, ac} => n in 0.0..0.3, 1..3\n",
            "max(n)",
        ),
        Truth::Never(0, 3),
    ),
    (
        (
            "k,cat,ab,bc,ac,abc\nv,dec,2,-0.02,0.01\n",
            "k,v\n",
            "a: k in {ab, ac, abc} => true, 0..2\nb: k in {ab, bc, abc} => true, 0..1\nc: k in {bc, ac, abc} => true, 0..3\n",
            "min(v)",
        ),
        Truth::Sometimes(-2, 1),
    ),
    (
        (
            "k,cat,ab,bc,ac,abc\nv,dec,1,0.1,0.4\n",
            "k,v\nab,0.3\nbc,0.2\n",
            "a: k in {ab, ac, abc} => true, 0..2\nb: k in {ab, bc, abc} => v >= 0.4, 0..3\nc: k in {bc, ac, abc} => v = 0.4, 0..3\n",
            "max(v) where v = 0.1",
        ),
        Truth::Always,
    ),
    (
        (
            "k,cat,ab,bc,ac\nv,dec,2,-0.02,0.01\n",
            "k,v\nbc,0.00\nab,0.00\n",
            "a: k in {ab, ac} and v = 0.00 => true, 0..2\nb: k in {ab, bc} => true, 1..2\nc: k in {bc, ac} and v > -0.02 => v = -0.02, 1..3\n",
            "min(v) where k = ac",
        ),
        Truth::Impossible,
    ),
];
