// Expressions, each between back quotes, with what an independent program makes of it by fractions.
//
// The columns are i, n?, m, z (int), d (dec2), e? (dec4), x (dec6), s, t?, u (text). In the row they are
// 7, Null, 9223372036854775807, 0, 1.50, Null, -2.500000, abc, Null and é.

// The kind, with ? where it may be Null, or what is wrong.
pub const KINDS: &str = "`i` int
`n` int?
`d` dec2
`e` dec4?
`s` text
`t` text?
`1` int
`1.5` dec1
`0.000001` dec6
`'x'` text
`i = n` truth
`i = d` truth
`s = t` truth
`s < 'x'` truth
`i = s` wrong kinds
`s = 1` wrong kinds
`d <> 'x'` wrong kinds
`(i < i) = i` wrong kinds
`i and n` wrong kinds
`i = 1 and n` wrong kinds
`i = 1 and n = 2` truth
`i = 1 or s` wrong kinds
`not i` wrong kinds
`not i = 1` truth
`not not n is null` truth
`s is null` truth
`i is not null` truth
`(i = 1) is null` wrong kinds
`i + n` int?
`i + d` dec2?
`d + e` dec4?
`e - d` dec4?
`i + s` wrong kinds
`s + t` wrong kinds
`i + (i = 1)` wrong kinds
`d * d` dec4?
`d * e` dec6?
`e * e` wrong kinds
`x * i` dec6?
`x * d` wrong kinds
`i * i` int?
`s * i` wrong kinds
`d / e` dec2?
`e / d` dec4?
`i / d` int?
`s / i` wrong kinds
`i / s` wrong kinds
`-i` int?
`-d` dec2?
`-s` wrong kinds
`-(i = 1)` wrong kinds
`abs(e)` dec4?
`abs(s)` wrong kinds
`abs(i = 1)` wrong kinds
`s || t` text?
`s || i` wrong kinds
`i || s` wrong kinds
`s || 'x' || t` text?
`length(s)` int
`length(t)` int?
`length(i)` wrong kinds
`length(s || t)` int?
`length(i = 1)` wrong kinds
`scale(i, 3)` dec3?
`scale(e, 0)` int?
`scale(d, 6)` dec6?
`scale(s, 2)` wrong kinds
`scale(i = 1, 2)` wrong kinds
`scale(x, 0) * x` dec6?
`coalesce(n, i)` int
`coalesce(i, n)` int?
`coalesce(n, n)` int?
`coalesce(n, 0)` int
`coalesce(d, i)` wrong kinds
`coalesce(d, 1.50)` dec2
`coalesce(e, 1.5)` wrong kinds
`coalesce(s, i)` wrong kinds
`coalesce(t, 'x')` text
`coalesce(i = 1, i = 2)` wrong kinds
`coalesce(i, i = 1)` wrong kinds
`if(i = 1, i, n)` int?
`if(i = 1, i, i)` int
`if(n is null, s, t)` text?
`if(i, s, t)` wrong kinds
`if(i = 1, s, i)` wrong kinds
`if(i = 1, d, e)` wrong kinds
`if(i = 1, i = 1, i = 2)` wrong kinds
`if(i = 1, 1, 2)` int
`if(i = 1, n, 2)` int?
`a` unknown a
`i = a` unknown a
`a = b` unknown a
`b or a` unknown b
`i + s + a` unknown a
`length(i) + a` unknown a
`if(a, b, c)` unknown a
`coalesce(b, a)` unknown b
`scale(a, 1)` unknown a
`not a` unknown a
`-a` unknown a
`abs(a)` unknown a
`a is null` unknown a
`a is not null` unknown a
`a || s` unknown a
`i + (s * a)` unknown a
`if(i = 1, q, a)` unknown q
`if(q = 1, b, a)` unknown q
`s and i` wrong kinds
`i + 1.5 * d` dec3?
`(i + d) * (d + i)` dec4?
`(i + e) * e` wrong kinds
`d / d / d` dec2?
`1.234567 * 1` dec6?
`1.234567 * 1.0` wrong kinds
`0.1 * 0.2 * 0.3` dec3?
`coalesce(i * 2, 0)` int
`if(t = 'x', length(t), 0)` int?
`length(coalesce(t, s)) + n` int?
`not (i = 1 or s = 'x') and n is null` truth";

// The value in the row, a number by its units and places, or the truth.
pub const VALUES: &str = "`i` 7
`n` Null
`d` 150e-2
`e` Null
`s` 'abc'
`t` Null
`m` 9223372036854775807
`z` 0
`x` -2500000e-6
`u` 'é'
`1` 1
`007` 7
`1.50` 150e-2
`0.000001` 1e-6
`'it''s'` 'it's'
`''` ''
`i + 1` 8
`1 + i` 8
`i + n` Null
`n + i` Null
`d + 1` 250e-2
`d + 0.005` 1505e-3
`d + i` 850e-2
`d + e` Null
`e + d` Null
`m + 1` Null
`m + 0` 9223372036854775807
`m + 0.1` Null
`m - m` 0
`-m - 1` -9223372036854775808
`-m - 2` Null
`i - 10` -3
`d - 2` -50e-2
`0.1 - 0.20` -10e-2
`i - n` Null
`n - i` Null
`m - -1` Null
`-m - 1 - 1` Null
`i * 2` 14
`d * d` 22500e-4
`d * 2` 300e-2
`i * n` Null
`n * i` Null
`m * 2` Null
`m * 1` 9223372036854775807
`-m * 2` Null
`m * m` Null
`-m * m` Null
`3037000500 * 3037000500` Null
`3037000499 * 3037000499` 9223372030926249001
`0.001 * 0.001` 1e-6
`x * 2` -5000000e-6
`z * m` 0
`92233720368.547758 * 10` 922337203685477580e-6
`i / 2` 3
`7 / 2` 3
`-7 / 2` -3
`7 / -2` -3
`-7 / -2` 3
`1 / 3` 0
`1.00 / 3` 33e-2
`2.00 / 3` 66e-2
`-2.00 / 3` -66e-2
`1.0 / 0.3` 33e-1
`d / 0.04` 3750e-2
`d / i` 21e-2
`i / d` 4
`i / z` Null
`z / i` 0
`i / 0.0` Null
`i / n` Null
`n / i` Null
`n / z` Null
`m / 0.1` Null
`m / 0.000001` Null
`-m / 0.5` Null
`(-m - 1) / -1` Null
`(-m - 1) / 1` -9223372036854775808
`0.000001 / 1000000` 0e-6
`9.999999 / 10` 999999e-6
`x / 2` -1250000e-6
`x / 4` -625000e-6
`1 / 0.000001` 1000000
`m / m` 1
`m / -1` -9223372036854775807
`-i` -7
`-d` -150e-2
`-n` Null
`- -i` 7
`-(-m - 1)` Null
`-z` 0
`-x` 2500000e-6
`abs(i)` 7
`abs(-i)` 7
`abs(x)` 2500000e-6
`abs(n)` Null
`abs(-m)` 9223372036854775807
`abs(-m - 1)` Null
`abs(0.0)` 0e-1
`scale(d, 0)` 2
`scale(1.5, 0)` 2
`scale(2.5, 0)` 3
`scale(-2.5, 0)` -3
`scale(1.4, 0)` 1
`scale(-1.4, 0)` -1
`scale(0.5, 0)` 1
`scale(-0.5, 0)` -1
`scale(0.49, 0)` 0
`scale(1.005, 2)` 101e-2
`scale(-1.005, 2)` -101e-2
`scale(1.004, 2)` 100e-2
`scale(0.000001, 5)` 0e-5
`scale(0.000005, 5)` 1e-5
`scale(0.000004, 5)` 0e-5
`scale(i, 2)` 700e-2
`scale(i, 6)` 7000000e-6
`scale(m, 1)` Null
`scale(m, 0)` 9223372036854775807
`scale(e, 2)` Null
`scale(x, 0)` -3
`scale(x, 1)` -25e-1
`scale(x, 6)` -2500000e-6
`scale(92233720368547758.07, 1)` 922337203685477581e-1
`scale(1.234567, 3)` 1235e-3
`scale(9.999999, 0)` 10
`scale(-9.999999, 5)` -1000000e-5
`scale(1, 6)` 1000000e-6
`scale(0.9, 0)` 1
`scale(d, 1)` 15e-1
`scale(1.25, 1)` 13e-1
`scale(1.35, 1)` 14e-1
`scale(-1.25, 1)` -13e-1
`scale(9223372036854.775807, 0)` 9223372036855
`scale(9223372036854, 6)` 9223372036854000000e-6
`scale(9223372036855, 6)` Null
`scale(n, 3)` Null
`s || 'd'` 'abcd'
`s || t` Null
`t || s` Null
`'' || ''` ''
`u || u` 'éé'
`s || s || s` 'abcabcabc'
`length(s)` 3
`length(u)` 2
`length(t)` Null
`length('')` 0
`length('it''s')` 4
`length(s || u)` 5
`length(t || s)` Null
`i = 7` True
`i = 7.0` True
`i = 7.000000` True
`i <> 7` False
`i < 7` False
`i <= 7` True
`i > 7` False
`i >= 7` True
`i = n` Unknown
`n = n` Unknown
`n <> n` Unknown
`n < i` Unknown
`i <= n` Unknown
`d = 1.5` True
`d = 1.50` True
`d > 1.499999` True
`d < 1.500001` True
`d >= 2` False
`x = -2.5` True
`x < -2` True
`-2.5 <= x` True
`m > 9223372036854775806` True
`m = 9223372036854775807` True
`m < 0.5` False
`-m < 0.000001` True
`m > 9223372036854.775807` True
`s = 'abc'` True
`s <> 'abc'` False
`s < 'abd'` True
`s < 'ab'` False
`s >= 'abc'` True
`s > 'Abc'` True
`s = t` Unknown
`t = t` Unknown
`u > 'z'` True
`u = 'é'` True
`'' < 'a'` True
`'a' < 'a '` True
`s || 'd' = 'abcd'` True
`s || 'd' < s` False
`'abcd' = s || 'd'` True
`s || '' = s || ''` True
`n is null` True
`n is not null` False
`i is null` False
`i is not null` True
`t is null` True
`n + 1 is null` True
`i / z is null` True
`i / z is not null` False
`(s || t) is null` True
`m + 1 is null` True
`i = 7 and d = 1.5` True
`i = 7 and d = 2` False
`i = 8 and d = 1.5` False
`i = 7 and n = 1` Unknown
`n = 1 and i = 7` Unknown
`i = 8 and n = 1` False
`n = 1 and i = 8` False
`n = 1 and n = 2` Unknown
`i = 7 or d = 2` True
`i = 8 or d = 2` False
`i = 7 or n = 1` True
`n = 1 or i = 7` True
`i = 8 or n = 1` Unknown
`n = 1 or i = 8` Unknown
`n = 1 or n = 2` Unknown
`not i = 7` False
`not i = 8` True
`not n = 1` Unknown
`not not n = 1` Unknown
`i = 8 or i = 7 and d = 1.5` True
`(i = 8 or i = 7) and d = 2` False
`i = 7 or i = 7 and d = 2` True
`not i = 8 and d = 1.5` True
`d >= 1.00 and not d is null` True
`coalesce(n, 5)` 5
`coalesce(i, 5)` 7
`coalesce(n, n)` Null
`coalesce(n, i / z)` Null
`coalesce(t, s)` 'abc'
`coalesce(s, t)` 'abc'
`coalesce(e, 1.2500)` 12500e-4
`coalesce(i / z, -1)` -1
`coalesce(coalesce(n, n), z)` 0
`if(i = 7, 1, 2)` 1
`if(i = 8, 1, 2)` 2
`if(n = 1, 1, 2)` 2
`if(not n = 1, 1, 2)` 2
`if(n is null, s, t)` 'abc'
`if(n is not null, s, t)` Null
`if(i = 7, n, i)` Null
`if(i = 8, n, i)` 7
`if(i = 7, d, scale(e, 2))` 150e-2
`if(i = 8, d, scale(e, 2))` Null
`if(i > 0, i / z, 0)` Null
`if(s = 'abc', s || '!', '?')` 'abc!'
`if(t = 'abc', 1, 0) + 1` 1
`abs(if(i = 7, x, x))` 2500000e-6";
