// The commands beside `faces`.
pub(crate) const COMMANDS: &str = "@empty, steps
steps m.ldr
^work m.ldr
~0
step 1 entries 0 view -
@empty, parts
parts m.ldr
^work m.ldr
~0
@steps
steps m.ldr
^work m.ldr
0 FILE m.ldr
2 24 0 0 0 1 0 0
0 STEP
0 STEP
0 ROTSTEP 0 45 0 REL
0 ROTSTEP 10 0 0 ADD
1 16 0 0 0 1 0 0 0 1 0 0 0 1 s.ldr
0 ROTSTEP END
2 24 0 0 0 2 0 0
0 STEP
0 FILE s.ldr
2 24 0 0 0 3 0 0
0 STEP
2 24 0 0 0 4 0 0
~0
step 1 entries 1 view -
line 24 - nocert clip ccw 0,0,0 1,0,0 model/m.ldr:1
step 2 entries 0 view -
step 3 entries 0 view rel:0,45,0
step 4 entries 0 view rel:0,45,0 rel:10,0,0
step 5 entries 2 view -
line 24 - nocert clip ccw 0,0,0 3,0,0 model/s.ldr:1
line 24 - nocert clip ccw 0,0,0 4,0,0 model/s.ldr:3
step 6 entries 1 view -
line 24 - nocert clip ccw 0,0,0 2,0,0 model/m.ldr:8
@steps of a faulted model
steps m.ldr
^work m.ldr
6 junk
~1
fault malformed model/m.ldr:1
@parts in order of first use
parts m.ldr
^work m.ldr
1 4 0 0 0 1 0 0 0 1 0 0 0 1 a.dat
1 1 0 0 0 1 0 0 0 1 0 0 0 1 b.dat
1 4 0 0 0 1 0 0 0 1 0 0 0 1 a.dat
1 24 0 0 0 1 0 0 0 1 0 0 0 1 a.dat
^parts a.dat
1 16 0 0 0 1 0 0 0 1 0 0 0 1 b.dat
^parts b.dat
~0
2 4 parts/a.dat
1 1 parts/b.dat
1 24 parts/a.dat
@generator
gen 25
~0
entries 100
parts 16
steps 3
@generator, too many entries
gen 9 --max-entries 35
~1
fault toomany model/stud.dat:5
@generator, absent colour file
gen 10 --colours gone.ldr
~3
absent gone.ldr
@generator, the most bricks
gen 100000
~0
entries 400000
parts 16
steps 10000
@files appear and go
replay m.ldr s.txt
^work m.ldr
1 16 0 0 0 1 0 0 0 1 0 0 0 1 X.DAT
^work s.txt
faces
drop\tparts\tx.dat
faces
drop\tp\tx.dat
faces
new\tparts\tx.dat
faces
^parts x.dat
2 24 0 0 0 1 0 0
^p x.dat
2 24 0 0 0 2 0 0
~0
part 16 - parts/x.dat at model/m.ldr:1
line 24 - nocert clip ccw 0,0,0 1,0,0 parts/x.dat:1
done
ok
part 16 - p/x.dat at model/m.ldr:1
line 24 - nocert clip ccw 0,0,0 2,0,0 p/x.dat:1
done
ok
fault missing model/m.ldr:1 x.dat
ok
part 16 - parts/x.dat at model/m.ldr:1
done
@refused edits
replay m.ldr s.txt
^work m.ldr
0 FILE m.ldr
2 24 0 0 0 1 0 0
0 FILE a.ldr
^work s.txt
move\tmodel\tm.ldr\tmodel\ta.ldr
set\tmodel\tm.ldr\t0\t0 x
set\tmodel\tm.ldr\t2\t0 x
ins\tmodel\tm.ldr\t2\t2 24 0 0 0 2 0 0
del\tmodel\tgone.ldr\t1
set\tmodel\tm.ldr\t1\t0 FILE z.ldr
jump
faces\tmodel\tgone.ldr\t16
faces
~0
refused filethere
refused noline 1
refused noline 1
ok
refused nofile
refused badline
refused script
refused nofile
line 24 - nocert clip ccw 0,0,0 1,0,0 model/m.ldr:1
line 24 - nocert clip ccw 0,0,0 2,0,0 model/m.ldr:2
done
@a part in two colours, with a comment and an empty line
replay m.ldr s.txt --main 4
^work m.ldr
1 16 0 0 0 1 0 0 0 1 0 0 0 1 x.dat
^work s.txt
# the same part in two colours
parts

steps\tparts\tx.dat\t1
^parts x.dat
3 16 0 0 0 1 0 0 0 1 0
~0
1 4 parts/x.dat
done
step 1 entries 1 view -
tri 1 - nocert clip ccw 0,0,0 1,0,0 0,1,0 parts/x.dat:1
done
@no commands over a faulted model
replay m.ldr s.txt
^work m.ldr
6 junk
^work s.txt
~0
@absent script before an absent colour file
replay m.ldr gone.txt --colours gone.ldr
^work m.ldr
6 junk
~3
absent gone.txt
@clip and winding, inlined
inline m.ldr
^work m.ldr
0 FILE m.ldr
0 BFC CERTIFY CW
0 BFC CERTIFY CCW
3 16 0 0 0 1 0 0 0 1 0
0 BFC CCW NOCLIP
0 BFC NOCLIP
1 16 0 0 0 1 0 0 0 1 0 0 0 1 t.ldr
0 FILE t.ldr
0 BFC CERTIFY CCW
3 16 0 0 0 1 0 0 0 1 0
~0
0 BFC CERTIFY CCW\r
3 16 0 1 0 1 0 0 0 0 0\r
0 BFC NOCLIP\r
3 16 0 0 0 1 0 0 0 1 0\r
0 STEP\r
@no colour to inline
inline m.ldr
^work m.ldr
0 FILE m.ldr
1 4 0 0 0 1 0 0 0 1 0 0 0 1 a.ldr
1 1 0 0 0 1 0 0 0 1 0 0 0 1 b.ldr
0 FILE a.ldr
1 24 0 0 0 1 0 0 0 1 0 0 0 1 b.ldr
0 FILE b.ldr
2 16 0 0 0 1 0 0
2 24 0 0 0 1 0 0
~1
nocolour 4
@findings
check bad.dat
^work bad.dat
0 Bad part
0 Name: other.dat
0 Author: A Builder
0 !LDRAW_ORG Unofficial_Part
0 !LICENSE Example licence
0 !HISTORY 2024-01-01 [a] first
0 BFC CERTIFY CCW
3 16 0 0 0 1 1 1 2 2 2
4 16 0 0 0 1 0 0 0 1 0 1 1 0
4 16 0 0 0 1 0 0 1 1 0 0 1 1
1 16 0 0 0 1 0 0 0 1 0 0 0 0 x.dat
2 16 0 0 0 1 0 0
2 16 0 0 0 1 0 0
3 16 0 0 0 0 0 0 1 0 0
6 junk
~1
2 103
7 108
8 302
9 304
10 303
11 305
12 308
13 306
13 308
14 301
14 302
15 201
@no findings
check p.dat
^work p.dat
0 Plate
0 Name: p.dat
0 Author: A Builder
0 !LDRAW_ORG Unofficial_Part
0 !LICENSE Example licence
0 BFC CERTIFY CCW
2 24 0 0 0 1 0 0
~0
@findings, absent colour file
check p.dat --colours gone.ldr
^work p.dat
~3
absent gone.ldr
";
