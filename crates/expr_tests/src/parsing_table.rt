// Texts, each between back quotes, with what an independent reader in another language makes of it: the
// tree, or what is wrong and where. A number is printed by its units and places.

pub const TEXTS: &str = "`a` a
` a` a
`a ` a
`  a  ` a
`a or b` (or a b)
`a or b or c` (or (or a b) c)
`a and b` (and a b)
`a and b and c` (and (and a b) c)
`a or b and c` (or a (and b c))
`a and b or c` (or (and a b) c)
`not a` (not a)
`not not a` (not (not a))
`not a and b` (and (not a) b)
`not a or not b` (or (not a) (not b))
`not a = b` (not (= a b))
`a or not b` (or a (not b))
`a = b` (= a b)
`a <> b` (<> a b)
`a < b` (< a b)
`a <= b` (<= a b)
`a > b` (> a b)
`a >= b` (>= a b)
`a=b` (= a b)
`a<>b` (<> a b)
`a<b` (< a b)
`a<=b` (<= a b)
`a>b` (> a b)
`a>=b` (>= a b)
`a is null` (is-null a)
`a is not null` (is-not-null a)
`a is null and b is not null` (and (is-null a) (is-not-null b))
`a + b = c - d` (= (+ a b) (- c d))
`a + b` (+ a b)
`a - b` (- a b)
`a || b` (|| a b)
`a + b + c` (+ (+ a b) c)
`a - b - c` (- (- a b) c)
`a || b || c` (|| (|| a b) c)
`a - b + c` (+ (- a b) c)
`a + b * c` (+ a (* b c))
`a * b + c` (+ (* a b) c)
`a * b` (* a b)
`a / b` (/ a b)
`a * b / c` (/ (* a b) c)
`a / b * c` (* (/ a b) c)
`a / b / c` (/ (/ a b) c)
`-a` (neg a)
`- -a` (neg (neg a))
`--a` (neg (neg a))
`-a * b` (* (neg a) b)
`a * -b` (* a (neg b))
`a - -b` (- a (neg b))
`a+-b` (+ a (neg b))
`-a + b` (+ (neg a) b)
`-(a + b)` (neg (+ a b))
`- 1` (neg 1)
`-1` (neg 1)
`a -1` (- a 1)
`a-1` (- a 1)
`(a)` a
`((a))` a
`( a )` a
`(a or b) and c` (and (or a b) c)
`a * (b + c)` (* a (+ b c))
`(a = b) = c` (= (= a b) c)
`(a is null) = b` (= (is-null a) b)
`(not a) = b` (= (not a) b)
`a = (b = c)` (= a (= b c))
`abs(a)` (abs a)
`abs( a )` (abs a)
`abs (a)` (abs a)
`length(a)` (length a)
`scale(a, 0)` (scale a 0)
`scale(a,6)` (scale a 6)
`scale(a + b, 3)` (scale (+ a b) 3)
`coalesce(a, b)` (coalesce a b)
`coalesce(a,b)` (coalesce a b)
`if(a, b, c)` (if a b c)
`if(a = 1, b, c)` (if (= a 1) b c)
`if(a,b,if(c,d,e))` (if a b (if c d e))
`abs(abs(a))` (abs (abs a))
`coalesce(coalesce(a, b), c)` (coalesce (coalesce a b) c)
`abs(a or b)` (abs (or a b))
`length(a || b) > 3` (> (length (|| a b)) 3)
`a = 1 or b = 2 and not c = 3` (or (= a 1) (and (= b 2) (not (= c 3))))
`a + b < c * d and e || f = g` (and (< (+ a b) (* c d)) (= (|| e f) g))
`amt >= 10.00 and not amt is null` (and (>= amt 1000e-2) (not (is-null amt)))
`coalesce(a, 0) + 1` (+ (coalesce a 0) 1)
`if(a is null, b, a / 2)` (if (is-null a) b (/ a 2))
`1` 1
`0` 0
`007` 7
`10.5` 105e-1
`1.0` 10e-1
`1.234567` 1234567e-6
`0.000001` 1e-6
`1 + 2` (+ 1 2)
`1+2` (+ 1 2)
`1.5+2` (+ 15e-1 2)
`9223372036854775807` 9223372036854775807
`922337203685477580.7` 9223372036854775807e-1
`9223372036854.775807` 9223372036854775807e-6
`0009223372036854775807` 9223372036854775807
`'x'` 'x'
`''` ''
`' '` ' '
`'it''s'` 'it's'
`''''` '''
`'a''''b'` 'a''b'
`'é'` 'é'
`'(a'` '(a'
`'x'||'y'` (|| 'x' 'y')
`'or' = a` (= 'or' a)
`a_1` a_1
`a1` a1
`a_` a_
`nones` nones
`tables` tables
`orx` orx
`or_` or_
`isnull` isnull
`ands` ands
`nota` nota
`abs1` abs1
`if1` if1
`lengths` lengths
`1is null` (is-null 1)
`12or b` (or 12 b)
`1and 2` (and 1 2)
`'x'and'y'` (and 'x' 'y')
`a is null or'x'=b` (or (is-null a) (= 'x' b))
`a or(b)` (or a b)
`not(a)` (not a)
`-(1)` (neg 1)
`a is  not  null` (is-not-null a)
`(a)or(b)` (or a b)
`n` n
`no` no
`ab` ab
`l` l
`le` le
`len` len
`leng` leng
`lengt` lengt
`s` s
`sc` sc
`sca` sca
`scal` scal
`c` c
`co` co
`coa` coa
`coal` coal
`coale` coale
`coales` coales
`coalesc` coalesc
`i` i
`'it'` 'it'
`` unexpected at 0
`a o` unexpected at 3
`a or` unexpected at 4
`a or ` unexpected at 5
`a a` unexpected at 3
`a an` unexpected at 4
`a and` unexpected at 5
`a and ` unexpected at 6
`not` unexpected at 3
`not ` unexpected at 4
`a i` unexpected at 3
`a is` unexpected at 4
`a is ` unexpected at 5
`a is n` unexpected at 6
`a is nu` unexpected at 7
`a is nul` unexpected at 8
`a is no` unexpected at 7
`a is not` unexpected at 8
`a is not ` unexpected at 9
`a is not n` unexpected at 10
`a is not nu` unexpected at 11
`a is not nul` unexpected at 12
`a <` unexpected at 3
`a <>` unexpected at 4
`a <> ` unexpected at 5
`a <=` unexpected at 4
`a <= ` unexpected at 5
`a >` unexpected at 3
`a >=` unexpected at 4
`a >= ` unexpected at 5
`a |` unexpected at 3
`a ||` unexpected at 4
`a || ` unexpected at 5
`abs` unexpected at 3
`abs(` unexpected at 4
`abs(a` unexpected at 5
`length` unexpected at 6
`length(` unexpected at 7
`length(a` unexpected at 8
`scale` unexpected at 5
`scale(` unexpected at 6
`scale(a` unexpected at 7
`scale(a,` unexpected at 8
`scale(a, ` unexpected at 9
`scale(a, 6` unexpected at 10
`coalesce` unexpected at 8
`coalesce(` unexpected at 9
`coalesce(a` unexpected at 10
`coalesce(a,` unexpected at 11
`coalesce(a, ` unexpected at 12
`coalesce(a, b` unexpected at 13
`if` unexpected at 2
`if(` unexpected at 3
`if(a` unexpected at 4
`if(a,` unexpected at 5
`if(a, ` unexpected at 6
`if(a, b` unexpected at 7
`if(a, b,` unexpected at 8
`if(a, b, ` unexpected at 9
`if(a, b, c` unexpected at 10
`'` unexpected at 1
`'i` unexpected at 2
`'it` unexpected at 3
`'it''` unexpected at 5
`'it''s` unexpected at 6
`1.` unexpected at 2
`a ax` unexpected at 3
`a | |` unexpected at 3
`a | b` unexpected at 3
`a ||| b` unexpected at 4
`a == b` unexpected at 3
`a = = b` unexpected at 4
`a =< b` unexpected at 3
`a =` unexpected at 3
`a = 'x` unexpected at 6
`a = 'x''` unexpected at 8
`'it''x` unexpected at 6
`a !` unexpected at 2
`a != b` unexpected at 2
`a b` unexpected at 2
`a 1` unexpected at 2
`a 'x'` unexpected at 2
`a (b)` unexpected at 2
`a.b` unexpected at 1
`1.x` unexpected at 2
`1.2.3` unexpected at 3
`1..2` unexpected at 2
`.5` unexpected at 0
`1.2345678` unexpected at 8
`1 2` unexpected at 2
`1a` unexpected at 2
`1_` unexpected at 1
`A` unexpected at 0
`Abc` unexpected at 0
`é` unexpected at 0
`a é` unexpected at 2
`_a` unexpected at 0
`9a` unexpected at 2
`a + not b` unexpected at 7
`a = not b` unexpected at 7
`- not a` unexpected at 5
`not and` unexpected at 7
`-` unexpected at 1
`- -` unexpected at 3
`a -` unexpected at 3
`a + * b` unexpected at 4
`a * / b` unexpected at 4
`* a` unexpected at 0
`+ a` unexpected at 0
`= a` unexpected at 0
`or a` unexpected at 2
`a or or b` unexpected at 7
`and` unexpected at 3
`a and and b` unexpected at 9
`or` unexpected at 2
`is` unexpected at 2
`null` unexpected at 4
`null = a` unexpected at 4
`a is nott null` unexpected at 8
`a is not not null` unexpected at 10
`is null` unexpected at 2
`a null` unexpected at 2
`a = null` unexpected at 8
`a is null is null` unexpected at 10
`a is null = b` unexpected at 10
`a = b is null` unexpected at 6
`a = b = c` unexpected at 6
`a < b < c` unexpected at 6
`a = b <> c` unexpected at 6
`()` unexpected at 1
`( )` unexpected at 2
`(a` unexpected at 2
`(a b)` unexpected at 3
`a)` unexpected at 1
`(a))` unexpected at 3
`((a)` unexpected at 4
`(a,b)` unexpected at 2
`a, b` unexpected at 1
`,` unexpected at 0
`abs a` unexpected at 4
`abs()` unexpected at 4
`abs(a,` unexpected at 5
`abs(a, b)` unexpected at 5
`length a` unexpected at 7
`length()` unexpected at 7
`scale(a)` unexpected at 7
`scale(a, 7)` unexpected at 9
`scale(a, 10)` unexpected at 10
`scale(a, 06)` unexpected at 10
`scale(a, 2.5)` unexpected at 10
`scale(a, -1)` unexpected at 9
`scale(a, b)` unexpected at 9
`scale(a, 2` unexpected at 10
`scale(a, 2, 3)` unexpected at 10
`scale()` unexpected at 6
`coalesce(a)` unexpected at 10
`coalesce(a,)` unexpected at 11
`coalesce(a, b, c)` unexpected at 13
`coalesce a` unexpected at 9
`if(a)` unexpected at 4
`if(a, b)` unexpected at 7
`if(a, b,)` unexpected at 8
`if(a, b, c, d)` unexpected at 10
`if a` unexpected at 3
`if()` unexpected at 3
`table` unexpected at 5
`table = 1` unexpected at 5
`none` unexpected at 4
`none or a` unexpected at 4
`a or table` unexpected at 10
`a #` unexpected at 2
`a\tb` unexpected at 1
`a or1` unexpected at 4
`a and1` unexpected at 5
`a isnull` unexpected at 4
`a is null1` unexpected at 9
`abs1(a)` unexpected at 4
`a orb` unexpected at 4
`9223372036854775808` bad number at 0
`92233720368547758.08` bad number at 0
`9223372036854775807.5` bad number at 0
`9223372036854775807.x` unexpected at 20
`99999999999999999999.x` bad number at 0
`99999999999999999999 b` bad number at 0
`99999999999999999999` bad number at 0
`a 99999999999999999999` unexpected at 2
`a = 99999999999999999999` bad number at 4
`scale(a, 99999999999999999999` unexpected at 9
`-9223372036854775808` bad number at 1
`1.99999999999999999999` unexpected at 8
`0.9999999` unexpected at 8
`a or 9223372036854775808 or )` bad number at 5
`18446744073709551616` bad number at 0
`a + 12345678901234567890.1 +` bad number at 4";
