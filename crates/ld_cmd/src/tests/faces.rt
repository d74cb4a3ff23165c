// Faces of models.
pub(crate) const FACES: &str = "@empty
faces m.ldr
^work m.ldr
~0
@rounding
faces m.ldr
^work m.ldr
3 16 0 0 0 1.0000005 0 0 0 -.5 0
~0
tri 16 - nocert clip ccw 0,0,0 1.000001,0,0 0,-0.5,0 model/m.ldr:1
@ends, whole
faces m.ldr
^work m.ldr
2 24 1000000 0 0 0 0 0
~0
line 24 - nocert clip ccw 1000000,0,0 0,0,0 model/m.ldr:1
@ends, with an exponent
faces m.ldr
^work m.ldr
2 24 1e6 0 0 0 0 0
~0
line 24 - nocert clip ccw 1000000,0,0 0,0,0 model/m.ldr:1
@ends, rounded down
faces m.ldr
^work m.ldr
2 24 1000000.0000004 0 0 0 0 0
~0
line 24 - nocert clip ccw 1000000,0,0 0,0,0 model/m.ldr:1
@ends, out of range
faces m.ldr
^work m.ldr
2 24 1000000.0000005 0 0 0 0 0
~1
fault range model/m.ldr:1
@rounding at each reference
faces m.ldr
^work m.ldr
0 FILE m.ldr
1 16 0 0 0 3 0 0 0 1 0 0 0 1 a.ldr
0 FILE a.ldr
1 16 0 0 0 0.333333 0 0 0 1 0 0 0 1 b.ldr
0 FILE b.ldr
2 24 1.5 0 0 0 0 0
~0
line 24 - nocert clip ccw 1.5,0,0 0,0,0 model/b.ldr:1
@matrix of zeros
faces m.ldr
^work m.ldr
0 FILE m.ldr
1 4 1 2 3 0 0 0 0 0 0 0 0 0 b.ldr
0 FILE b.ldr
3 16 5 0 0 0 5 0 0 0 5
~0
tri 4 - nocert clip ccw 1,2,3 1,2,3 1,2,3 model/b.ldr:1
@colours
faces m.ldr --colours c.ldr
^work c.ldr
0 !COLOUR Red CODE 4 VALUE #C91A09 EDGE #333333
0 !COLOUR Blue CODE 1 VALUE 0x0055bf EDGE 0
0 !COLOUR Black CODE 0 VALUE #05131D EDGE #595959
^work m.ldr
0 FILE m.ldr
1 4 0 0 0 1 0 0 0 1 0 0 0 1 a.ldr
1 1 0 0 0 1 0 0 0 1 0 0 0 1 b.ldr
0 FILE a.ldr
1 24 0 0 0 1 0 0 0 1 0 0 0 1 b.ldr
0 FILE b.ldr
2 16 0 0 0 1 0 0
2 24 0 0 0 1 0 0
~0
line e4 #333333 nocert clip ccw 0,0,0 1,0,0 model/b.ldr:1
line e4 #333333 nocert clip ccw 0,0,0 1,0,0 model/b.ldr:2
line 1 #0055BF nocert clip ccw 0,0,0 1,0,0 model/b.ldr:1
line e1 #05131D nocert clip ccw 0,0,0 1,0,0 model/b.ldr:2
@invertnext and mirror
faces m.ldr
^work m.ldr
0 FILE m.ldr
0 BFC CERTIFY CCW
0 BFC INVERTNEXT
0 note
1 16 0 0 0 -1 0 0 0 1 0 0 0 1 t.ldr
0 BFC INVERTNEXT
3 16 0 0 0 1 0 0 0 1 0
1 16 0 0 0 1 0 0 0 1 0 0 0 1 t.ldr
0 FILE t.ldr
0 BFC CERTIFY CCW
3 16 0 0 0 1 0 0 0 1 0
~0
tri 16 - cert clip ccw 0,0,0 -1,0,0 0,1,0 model/t.ldr:2
tri 16 - cert clip ccw 0,0,0 1,0,0 0,1,0 model/m.ldr:6
tri 16 - cert clip ccw 0,0,0 1,0,0 0,1,0 model/t.ldr:2
@mirror without invertnext
faces m.ldr
^work m.ldr
0 FILE m.ldr
0 BFC CERTIFY CCW
0 note
1 16 0 0 0 -1 0 0 0 1 0 0 0 1 t.ldr
0 FILE t.ldr
0 BFC CERTIFY CCW
3 16 0 0 0 1 0 0 0 1 0
~0
tri 16 - cert clip cw 0,0,0 -1,0,0 0,1,0 model/t.ldr:2
@certification, a primitive below a model
faces m1.ldr
^work m1.ldr
1 16 0 0 0 1 0 0 0 1 0 0 0 1 pr.dat
^p pr.dat
0 BFC CERTIFY CCW
3 16 0 0 0 1 0 0 0 1 0
~0
part 16 - p/pr.dat at model/m1.ldr:1
tri 16 - cert clip ccw 0,0,0 1,0,0 0,1,0 p/pr.dat:2
@certification, a part that states nothing
faces m2.ldr
^work m2.ldr
1 16 0 0 0 1 0 0 0 1 0 0 0 1 s.dat
^parts s.dat
1 16 0 0 0 1 0 0 0 1 0 0 0 1 pr.dat
^p pr.dat
0 BFC CERTIFY CCW
3 16 0 0 0 1 0 0 0 1 0
~0
part 16 - parts/s.dat at model/m2.ldr:1
tri 16 - nocert clip ccw 0,0,0 1,0,0 0,1,0 p/pr.dat:2
@certification, NOCERTIFY
faces m3.ldr
^work m3.ldr
0 BFC NOCERTIFY
1 16 0 0 0 1 0 0 0 1 0 0 0 1 pr.dat
^p pr.dat
0 BFC CERTIFY CCW
3 16 0 0 0 1 0 0 0 1 0
~0
part 16 - p/pr.dat at model/m3.ldr:2
tri 16 - nocert clip ccw 0,0,0 1,0,0 0,1,0 p/pr.dat:2
@cycle
faces m.ldr
^work m.ldr
0 FILE a.ldr
1 16 0 0 0 1 0 0 0 1 0 0 0 1 b.ldr
0 FILE b.ldr
3 16 0 0 0 1 0 0 0 1 0
1 16 0 0 0 1 0 0 0 1 0 0 0 1 a.ldr
~1
fault cycle model/b.ldr:2 a.ldr
@earlier fault from outside
faces m.ldr
^work m.ldr
0 FILE m.ldr
1 16 1000000 0 0 1 0 0 0 1 0 0 0 1 s.ldr
0 FILE s.ldr
3 16 0 0 0 1 0 0 0 1 0
1 16 0 0 0 1 0 0 0 1 0 0 0 1 gone.dat
~1
fault range model/m.ldr:1
@missing without it
faces m.ldr
^work m.ldr
0 FILE m.ldr
1 16 0 0 0 1 0 0 0 1 0 0 0 1 s.ldr
0 FILE s.ldr
3 16 0 0 0 1 0 0 0 1 0
1 16 0 0 0 1 0 0 0 1 0 0 0 1 gone.dat
~1
fault missing model/s.ldr:2 gone.dat
@mpd
faces m.mpd
^work m.mpd
0 outside
0 FILE My Car.ldr
2 24 0 0 0 1 0 0
0 NOFILE
3 bad
0 FILE A.ldr
0 FILE a.ldr
2 24 0 0 0 9 9 9
~0
line 24 - nocert clip ccw 0,0,0 1,0,0 model/my car.ldr:1
@unnamed
faces m.ldr
^work m.ldr
1 16 0 0 0 1 0 0 0 1 0 0 0 1 C:\\x.dat
~1
fault unnamed model/m.ldr:1
@limits with a place, one entry too many
faces m.ldr --max-entries 3
^work m.ldr
3 16 0 0 0 1 0 0 0 1 0
3 16 0 0 0 1 0 0 0 1 0
3 16 0 0 0 1 0 0 0 1 0
3 16 0 0 0 1 0 0 0 1 0
~1
fault toomany model/m.ldr:4
@limits with a place, just enough
faces m.ldr --max-entries 3
^work m.ldr
3 16 0 0 0 1 0 0 0 1 0
3 16 0 0 0 1 0 0 0 1 0
3 16 0 0 0 1 0 0 0 1 0
~0
tri 16 - nocert clip ccw 0,0,0 1,0,0 0,1,0 model/m.ldr:1
tri 16 - nocert clip ccw 0,0,0 1,0,0 0,1,0 model/m.ldr:2
tri 16 - nocert clip ccw 0,0,0 1,0,0 0,1,0 model/m.ldr:3
@limits with a place, too deep
faces m.ldr --max-depth 2
^work m.ldr
0 FILE m.ldr
1 16 0 0 0 1 0 0 0 1 0 0 0 1 a.ldr
0 FILE a.ldr
1 16 0 0 0 1 0 0 0 1 0 0 0 1 b.ldr
0 FILE b.ldr
~1
fault toodeep model/a.ldr:1
@direct colours, decimal
faces m.ldr --main 50298880
^work m.ldr
2 16 0 0 0 1 0 0
2 24 0 0 0 1 0 0 more words
~0
line 0x2FF8000 #FF8000 nocert clip ccw 0,0,0 1,0,0 model/m.ldr:1
line 0x2333333 #333333 nocert clip ccw 0,0,0 1,0,0 model/m.ldr:2
@direct colours, hexadecimal
faces m.ldr --main 0x2ff8000
^work m.ldr
2 16 0 0 0 1 0 0
2 24 0 0 0 1 0 0 more words
~0
line 0x2FF8000 #FF8000 nocert clip ccw 0,0,0 1,0,0 model/m.ldr:1
line 0x2333333 #333333 nocert clip ccw 0,0,0 1,0,0 model/m.ldr:2
@malformed, a reference without a name
faces m.ldr
^work m.ldr
1 16 0 0 0 1 0 0 0 1 0 0 0 1
~1
fault malformed model/m.ldr:1
@malformed, no line type
faces m.ldr
^work m.ldr
6 junk
~1
fault malformed model/m.ldr:1
@malformed, no numeral
faces m.ldr
^work m.ldr
2 16 0 0 0 x 0 0
~1
fault malformed model/m.ldr:1
@clip and winding
faces m.ldr
^work m.ldr
0 FILE m.ldr
0 BFC CERTIFY CW
0 BFC CERTIFY CCW
3 16 0 0 0 1 0 0 0 1 0
0 BFC CCW NOCLIP
0 BFC NOCLIP
1 16 0 0 0 1 0 0 0 1 0 0 0 1 t.ldr
0 FILE t.ldr
0 BFC CERTIFY CCW
3 16 0 0 0 1 0 0 0 1 0
~0
tri 16 - cert clip cw 0,0,0 1,0,0 0,1,0 model/m.ldr:3
tri 16 - cert noclip ccw 0,0,0 1,0,0 0,1,0 model/t.ldr:2
@parts before p
faces m.ldr
^work m.ldr
1 16 0 0 0 1 0 0 0 1 0 0 0 1 X.DAT
^parts x.dat
2 24 0 0 0 1 0 0
^p x.dat
2 24 0 0 0 2 0 0
~0
part 16 - parts/x.dat at model/m.ldr:1
line 24 - nocert clip ccw 0,0,0 1,0,0 parts/x.dat:1
";
