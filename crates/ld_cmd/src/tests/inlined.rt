// Models inlined, and each text read again. What it is read as is the drawn entries of the model without their sources, all
// certified and counterclockwise, and its steps counted in them.
pub(crate) const INLINED: &str = "@clip and winding
inline m.ldr --colours c.ldr
^work c.ldr
0 !COLOUR Red CODE 4 VALUE #C91A09 EDGE #333333
0 !COLOUR Blue CODE 1 VALUE 0x0055bf EDGE 0
0 !COLOUR Black CODE 0 VALUE #05131D EDGE #595959
^work m.ldr
0 FILE m.ldr
0 BFC CERTIFY CCW
1 16 0 0 0 1 0 0 0 1 0 0 0 1 t.ldr
0 BFC INVERTNEXT
1 16 0 0 0 1 0 0 0 1 0 0 0 1 t.ldr
0 BFC NOCLIP
1 16 0 0 0 1 0 0 0 1 0 0 0 1 t.ldr
0 BFC CLIP CW
4 16 0 0 0 1 0 0 1 1 0 0 1 0
1 16 0 0 0 1 0 0 0 1 0 0 0 1 u.ldr
0 FILE t.ldr
0 BFC CERTIFY CW
3 16 0 0 0 1 0 0 0 1 0
0 FILE u.ldr
0 BFC NOCERTIFY
3 16 0 0 0 2 0 0 0 2 0
5 24 0 0 0 1 0 0 0 1 0 0 0 1
~0
0 BFC CERTIFY CCW\r
3 16 0 1 0 1 0 0 0 0 0\r
3 16 0 0 0 1 0 0 0 1 0\r
0 BFC NOCLIP\r
3 16 0 1 0 1 0 0 0 0 0\r
0 BFC CLIP\r
4 16 0 1 0 1 1 0 1 0 0 0 0 0\r
0 BFC NOCLIP\r
3 16 0 0 0 2 0 0 0 2 0\r
5 24 0 0 0 1 0 0 0 1 0 0 0 1\r
0 STEP\r
@clip and winding, read again
steps i.ldr --colours c.ldr
^work c.ldr
0 !COLOUR Red CODE 4 VALUE #C91A09 EDGE #333333
0 !COLOUR Blue CODE 1 VALUE 0x0055bf EDGE 0
0 !COLOUR Black CODE 0 VALUE #05131D EDGE #595959
^work i.ldr
0 BFC CERTIFY CCW\r
3 16 0 1 0 1 0 0 0 0 0\r
3 16 0 0 0 1 0 0 0 1 0\r
0 BFC NOCLIP\r
3 16 0 1 0 1 0 0 0 0 0\r
0 BFC CLIP\r
4 16 0 1 0 1 1 0 1 0 0 0 0 0\r
0 BFC NOCLIP\r
3 16 0 0 0 2 0 0 0 2 0\r
5 24 0 0 0 1 0 0 0 1 0 0 0 1\r
0 STEP\r
~0
step 1 entries 6 view -
tri 16 - cert clip ccw 0,1,0 1,0,0 0,0,0 model/i.ldr:2
tri 16 - cert clip ccw 0,0,0 1,0,0 0,1,0 model/i.ldr:3
tri 16 - cert noclip ccw 0,1,0 1,0,0 0,0,0 model/i.ldr:5
quad 16 - cert clip ccw 0,1,0 1,1,0 1,0,0 0,0,0 model/i.ldr:7
tri 16 - cert noclip ccw 0,0,0 2,0,0 0,2,0 model/i.ldr:9
opt 24 - cert noclip ccw 0,0,0 1,0,0 0,1,0 0,0,1 model/i.ldr:10
@views
inline m.ldr --colours c.ldr
^work c.ldr
0 !COLOUR Red CODE 4 VALUE #C91A09 EDGE #333333
0 !COLOUR Blue CODE 1 VALUE 0x0055bf EDGE 0
0 !COLOUR Black CODE 0 VALUE #05131D EDGE #595959
^work m.ldr
0 FILE m.ldr
2 24 0 0 0 1 0 0
0 ROTSTEP 0 45 0 REL
0 ROTSTEP 1 0 0 ADD
0 ROTSTEP 2 0 0 ADD
0 ROTSTEP 3 0 0 ADD
0 ROTSTEP 4 0 0 ADD
0 ROTSTEP 5 0 0 ADD
0 ROTSTEP 6 0 0 ADD
0 ROTSTEP 7 0 0 ADD
0 ROTSTEP 8 0 0 ADD
2 24 0 0 0 2 0 0
0 ROTSTEP 1 2 3 ABS
0 ROTSTEP END
0 STEP
2 24 0 0 0 3 0 0
~0
0 BFC CERTIFY CCW\r
0 BFC NOCLIP\r
2 24 0 0 0 1 0 0\r
0 ROTSTEP 0 45 0 REL\r
0 ROTSTEP 1 0 0 ADD\r
0 ROTSTEP 2 0 0 ADD\r
0 ROTSTEP 3 0 0 ADD\r
0 ROTSTEP 4 0 0 ADD\r
0 ROTSTEP 5 0 0 ADD\r
0 ROTSTEP 6 0 0 ADD\r
0 ROTSTEP 7 0 0 ADD\r
0 ROTSTEP 8 0 0 ADD\r
2 24 0 0 0 2 0 0\r
0 ROTSTEP 1 2 3 ABS\r
0 ROTSTEP END\r
0 STEP\r
2 24 0 0 0 3 0 0\r
0 STEP\r
@views, read again
steps i.ldr --colours c.ldr
^work c.ldr
0 !COLOUR Red CODE 4 VALUE #C91A09 EDGE #333333
0 !COLOUR Blue CODE 1 VALUE 0x0055bf EDGE 0
0 !COLOUR Black CODE 0 VALUE #05131D EDGE #595959
^work i.ldr
0 BFC CERTIFY CCW\r
0 BFC NOCLIP\r
2 24 0 0 0 1 0 0\r
0 ROTSTEP 0 45 0 REL\r
0 ROTSTEP 1 0 0 ADD\r
0 ROTSTEP 2 0 0 ADD\r
0 ROTSTEP 3 0 0 ADD\r
0 ROTSTEP 4 0 0 ADD\r
0 ROTSTEP 5 0 0 ADD\r
0 ROTSTEP 6 0 0 ADD\r
0 ROTSTEP 7 0 0 ADD\r
0 ROTSTEP 8 0 0 ADD\r
2 24 0 0 0 2 0 0\r
0 ROTSTEP 1 2 3 ABS\r
0 ROTSTEP END\r
0 STEP\r
2 24 0 0 0 3 0 0\r
0 STEP\r
~0
step 1 entries 1 view rel:0,45,0
line 24 - cert noclip ccw 0,0,0 1,0,0 model/i.ldr:3
step 2 entries 0 view rel:0,45,0 rel:1,0,0
step 3 entries 0 view rel:0,45,0 rel:1,0,0 rel:2,0,0
step 4 entries 0 view rel:0,45,0 rel:1,0,0 rel:2,0,0 rel:3,0,0
step 5 entries 0 view rel:0,45,0 rel:1,0,0 rel:2,0,0 rel:3,0,0 rel:4,0,0
step 6 entries 0 view rel:0,45,0 rel:1,0,0 rel:2,0,0 rel:3,0,0 rel:4,0,0 rel:5,0,0
step 7 entries 0 view rel:0,45,0 rel:1,0,0 rel:2,0,0 rel:3,0,0 rel:4,0,0 rel:5,0,0 rel:6,0,0
step 8 entries 0 view rel:0,45,0 rel:1,0,0 rel:2,0,0 rel:3,0,0 rel:4,0,0 rel:5,0,0 rel:6,0,0 rel:7,0,0
step 9 entries 0 view rel:1,0,0 rel:2,0,0 rel:3,0,0 rel:4,0,0 rel:5,0,0 rel:6,0,0 rel:7,0,0 rel:8,0,0
step 10 entries 1 view abs:1,2,3
line 24 - cert noclip ccw 0,0,0 2,0,0 model/i.ldr:13
step 11 entries 0 view -
step 12 entries 0 view -
step 13 entries 1 view -
line 24 - cert noclip ccw 0,0,0 3,0,0 model/i.ldr:17
@edge colours
inline m.ldr --colours c.ldr
^work c.ldr
0 !COLOUR Red CODE 4 VALUE #C91A09 EDGE #333333
0 !COLOUR Blue CODE 1 VALUE 0x0055bf EDGE 0
0 !COLOUR Black CODE 0 VALUE #05131D EDGE #595959
^work m.ldr
0 FILE m.ldr
1 4 0 0 0 1 0 0 0 1 0 0 0 1 e.ldr
1 1 0 0 0 1 0 0 0 1 0 0 0 1 e.ldr
0 STEP
1 0x2FF8000 0 0 0 1 0 0 0 1 0 0 0 1 e.ldr
1 16 0 0 0 1 0 0 0 1 0 0 0 1 e.ldr
0 FILE e.ldr
2 24 0 0 0 1 0 0
3 16 0 0 0 1 0 0 0 1 0
~0
0 BFC CERTIFY CCW\r
0 BFC NOCLIP\r
2 0x2333333 0 0 0 1 0 0\r
3 4 0 0 0 1 0 0 0 1 0\r
2 0x205131D 0 0 0 1 0 0\r
3 1 0 0 0 1 0 0 0 1 0\r
0 STEP\r
2 0x2333333 0 0 0 1 0 0\r
3 0x2FF8000 0 0 0 1 0 0 0 1 0\r
2 24 0 0 0 1 0 0\r
3 16 0 0 0 1 0 0 0 1 0\r
0 STEP\r
@edge colours, read again
steps i.ldr --colours c.ldr
^work c.ldr
0 !COLOUR Red CODE 4 VALUE #C91A09 EDGE #333333
0 !COLOUR Blue CODE 1 VALUE 0x0055bf EDGE 0
0 !COLOUR Black CODE 0 VALUE #05131D EDGE #595959
^work i.ldr
0 BFC CERTIFY CCW\r
0 BFC NOCLIP\r
2 0x2333333 0 0 0 1 0 0\r
3 4 0 0 0 1 0 0 0 1 0\r
2 0x205131D 0 0 0 1 0 0\r
3 1 0 0 0 1 0 0 0 1 0\r
0 STEP\r
2 0x2333333 0 0 0 1 0 0\r
3 0x2FF8000 0 0 0 1 0 0 0 1 0\r
2 24 0 0 0 1 0 0\r
3 16 0 0 0 1 0 0 0 1 0\r
0 STEP\r
~0
step 1 entries 4 view -
line 0x2333333 #333333 cert noclip ccw 0,0,0 1,0,0 model/i.ldr:3
tri 4 #C91A09 cert noclip ccw 0,0,0 1,0,0 0,1,0 model/i.ldr:4
line 0x205131D #05131D cert noclip ccw 0,0,0 1,0,0 model/i.ldr:5
tri 1 #0055BF cert noclip ccw 0,0,0 1,0,0 0,1,0 model/i.ldr:6
step 2 entries 4 view -
line 0x2333333 #333333 cert noclip ccw 0,0,0 1,0,0 model/i.ldr:8
tri 0x2FF8000 #FF8000 cert noclip ccw 0,0,0 1,0,0 0,1,0 model/i.ldr:9
line 24 - cert noclip ccw 0,0,0 1,0,0 model/i.ldr:10
tri 16 - cert noclip ccw 0,0,0 1,0,0 0,1,0 model/i.ldr:11
@placed parts
inline m.ldr --colours c.ldr
^work c.ldr
0 !COLOUR Red CODE 4 VALUE #C91A09 EDGE #333333
0 !COLOUR Blue CODE 1 VALUE 0x0055bf EDGE 0
0 !COLOUR Black CODE 0 VALUE #05131D EDGE #595959
^work m.ldr
0 FILE m.ldr
0 BFC CERTIFY CCW
1 4 10 0 0 -1 0 0 0 1 0 0 0 1 a.ldr
0 STEP
1 1 0 0 0 1 0 0 0 1 0 0 0 1 a.ldr
0 FILE a.ldr
0 BFC CERTIFY CCW
1 16 0 5 0 1 0 0 0 -1 0 0 0 1 b.ldr
4 16 0 0 0 1 0 0 1 1 0 0 1 0
0 FILE b.ldr
0 !LDRAW_ORG Part
0 BFC CERTIFY CCW
3 16 0 0 0 1.5 0 0 0 1 0.25
2 24 0 0 0 1 0 0
~0
0 BFC CERTIFY CCW\r
3 4 10 5 0 8.5 5 0 10 4 0.25\r
2 0x2333333 10 5 0 9 5 0\r
4 4 10 1 0 9 1 0 9 0 0 10 0 0\r
0 STEP\r
3 1 0 4 0.25 1.5 5 0 0 5 0\r
2 0x205131D 0 5 0 1 5 0\r
4 1 0 0 0 1 0 0 1 1 0 0 1 0\r
0 STEP\r
@placed parts, read again
steps i.ldr --colours c.ldr
^work c.ldr
0 !COLOUR Red CODE 4 VALUE #C91A09 EDGE #333333
0 !COLOUR Blue CODE 1 VALUE 0x0055bf EDGE 0
0 !COLOUR Black CODE 0 VALUE #05131D EDGE #595959
^work i.ldr
0 BFC CERTIFY CCW\r
3 4 10 5 0 8.5 5 0 10 4 0.25\r
2 0x2333333 10 5 0 9 5 0\r
4 4 10 1 0 9 1 0 9 0 0 10 0 0\r
0 STEP\r
3 1 0 4 0.25 1.5 5 0 0 5 0\r
2 0x205131D 0 5 0 1 5 0\r
4 1 0 0 0 1 0 0 1 1 0 0 1 0\r
0 STEP\r
~0
step 1 entries 3 view -
tri 4 #C91A09 cert clip ccw 10,5,0 8.5,5,0 10,4,0.25 model/i.ldr:2
line 0x2333333 #333333 cert clip ccw 10,5,0 9,5,0 model/i.ldr:3
quad 4 #C91A09 cert clip ccw 10,1,0 9,1,0 9,0,0 10,0,0 model/i.ldr:4
step 2 entries 3 view -
tri 1 #0055BF cert clip ccw 0,4,0.25 1.5,5,0 0,5,0 model/i.ldr:6
line 0x205131D #05131D cert clip ccw 0,5,0 1,5,0 model/i.ldr:7
quad 1 #0055BF cert clip ccw 0,0,0 1,0,0 1,1,0 0,1,0 model/i.ldr:8
";
