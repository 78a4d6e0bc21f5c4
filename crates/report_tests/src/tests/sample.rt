// The report of a loop that copies a string, in min.
pub(super) const SAMPLE: &str = "report 2
mode min
delay 2
narrow 0
passes 4
program
vars ls n ld;
assume ls >= 0;
ld := 0;
while ld < n && ld < ls {
  ld := ld + 1;
}
if ld >= n {
  havoc ld;
  assume ld >= n;
}
assert min(ls, n) = min(ld, n);
end
at 0 statement 0
ray [oo, oo, 0]
ray [oo, 0, oo]
ray [0, oo, oo]
point [oo, oo, oo]
at 1 statement 1
ray [oo, oo, 0]
ray [oo, 0, oo]
point [oo, oo, oo]
point [0, oo, oo]
inv ls >= 0
at 2 statement 2
ray [oo, 0, oo]
point [oo, oo, oo]
point [oo, oo, 0]
point [0, oo, 0]
inv ls >= ld
inv ls >= 0
inv ld >= 0
at 3 inner
point [oo, oo, oo]
point [oo, oo, 0]
point [oo, 1, 0]
point [0, oo, 0]
inv ls >= ld
inv ls >= 0
inv n >= ld + 1
inv n >= 1
inv ld >= 0
at 4 statement 3
point [oo, oo, oo]
point [oo, oo, 0]
point [oo, 1, 0]
point [1, oo, 0]
inv ls >= ld + 1
inv ls >= 1
inv n >= ld + 1
inv n >= 1
inv ld >= 0
at 5 statement 4
ray [oo, 0, oo]
point [oo, oo, oo]
point [oo, 0, 0]
point [0, oo, 0]
inv ls >= ld
inv ls >= 0
inv ld >= min(ls, n)
inv ld >= 0
at 6 statement 5
ray [oo, 0, oo]
point [oo, oo, oo]
point [oo, 0, 0]
point [0, 0, 0]
inv ls >= ld
inv ls >= n
inv ls >= 0
inv ld >= n
inv ld >= 0
at 7 statement 6
ray [oo, oo, 0]
ray [oo, 0, oo]
point [oo, oo, oo]
point [0, 0, oo]
inv ls >= n
inv ls >= 0
at 8 statement 7
ray [oo, 0, oo]
ray [oo, 0, 0]
point [oo, oo, oo]
point [0, oo, 0]
point [0, 0, oo]
inv ls >= min(n, ld)
inv ls >= 0
inv ld >= min(ls, n)
inv ld >= min(0, n)
at 9 exit
ray [oo, 0, oo]
ray [oo, 0, 0]
point [oo, oo, oo]
point [0, oo, 0]
point [0, 0, oo]
inv ls >= min(n, ld)
inv ls >= 0
inv ld >= min(ls, n)
inv ld >= min(0, n)
assert 7 proved
end
";
