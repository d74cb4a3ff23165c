// A model of bricks and a library of two parts.
pub(crate) const ORDINARY: &str = "@ordinary model, parts
parts car.mpd
^work car.mpd
0 FILE car.ldr
0 Car
0 Name: car.ldr
0 Author: A Builder
0 !LDRAW_ORG Unofficial_Model
0 !LICENSE Example licence
1 4 0 0 0 1 0 0 0 1 0 0 0 1 left.ldr
1 1 100 0 0 1 0 0 0 1 0 0 0 1 3001.dat
0 STEP
1 1 0 -24 0 1 0 0 0 1 0 0 0 1 right.ldr
1 1 200 0 0 1 0 0 0 1 0 0 0 1 3001.dat
0 FILE left.ldr
1 16 0 0 0 1 0 0 0 1 0 0 0 1 3001.dat
1 16 0 0 80 1 0 0 0 1 0 0 0 1 3001.dat
1 16 0 0 160 1 0 0 0 1 0 0 0 1 3001.dat
0 STEP
1 14 0 0 240 1 0 0 0 1 0 0 0 1 3001.dat
1 14 0 0 320 1 0 0 0 1 0 0 0 1 3001.dat
0 FILE right.ldr
1 16 0 0 0 1 0 0 0 1 0 0 0 1 3001.dat
1 16 0 0 80 1 0 0 0 1 0 0 0 1 3001.dat
1 16 0 0 160 1 0 0 0 1 0 0 0 1 3001.dat
1 4 0 0 240 1 0 0 0 1 0 0 0 1 3001.dat
1 4 0 0 320 1 0 0 0 1 0 0 0 1 3001.dat
^parts 3001.dat
0 Brick  2 x  4
0 Name: 3001.dat
0 Author: A Builder
0 !LDRAW_ORG Unofficial_Part
0 !LICENSE Example licence
0 BFC CERTIFY CCW
4 16 -40 0 -20 -40 0 20 40 0 20 40 0 -20
1 16 0 -4 0 1 0 0 0 1 0 0 0 1 stud.dat
^p stud.dat
0 Stud
0 Name: stud.dat
0 Author: A Builder
0 !LDRAW_ORG Unofficial_Primitive
0 !LICENSE Example licence
0 BFC CERTIFY CCW
3 16 0 0 0 6 0 0 0 0 6
2 24 0 0 0 6 0 0
~0
5 4 parts/3001.dat
2 14 parts/3001.dat
5 1 parts/3001.dat
@ordinary model, faces
faces car.mpd
^work car.mpd
0 FILE car.ldr
0 Car
0 Name: car.ldr
0 Author: A Builder
0 !LDRAW_ORG Unofficial_Model
0 !LICENSE Example licence
1 4 0 0 0 1 0 0 0 1 0 0 0 1 left.ldr
1 1 100 0 0 1 0 0 0 1 0 0 0 1 3001.dat
0 STEP
1 1 0 -24 0 1 0 0 0 1 0 0 0 1 right.ldr
1 1 200 0 0 1 0 0 0 1 0 0 0 1 3001.dat
0 FILE left.ldr
1 16 0 0 0 1 0 0 0 1 0 0 0 1 3001.dat
1 16 0 0 80 1 0 0 0 1 0 0 0 1 3001.dat
1 16 0 0 160 1 0 0 0 1 0 0 0 1 3001.dat
0 STEP
1 14 0 0 240 1 0 0 0 1 0 0 0 1 3001.dat
1 14 0 0 320 1 0 0 0 1 0 0 0 1 3001.dat
0 FILE right.ldr
1 16 0 0 0 1 0 0 0 1 0 0 0 1 3001.dat
1 16 0 0 80 1 0 0 0 1 0 0 0 1 3001.dat
1 16 0 0 160 1 0 0 0 1 0 0 0 1 3001.dat
1 4 0 0 240 1 0 0 0 1 0 0 0 1 3001.dat
1 4 0 0 320 1 0 0 0 1 0 0 0 1 3001.dat
^parts 3001.dat
0 Brick  2 x  4
0 Name: 3001.dat
0 Author: A Builder
0 !LDRAW_ORG Unofficial_Part
0 !LICENSE Example licence
0 BFC CERTIFY CCW
4 16 -40 0 -20 -40 0 20 40 0 20 40 0 -20
1 16 0 -4 0 1 0 0 0 1 0 0 0 1 stud.dat
^p stud.dat
0 Stud
0 Name: stud.dat
0 Author: A Builder
0 !LDRAW_ORG Unofficial_Primitive
0 !LICENSE Example licence
0 BFC CERTIFY CCW
3 16 0 0 0 6 0 0 0 0 6
2 24 0 0 0 6 0 0
~0
part 4 - parts/3001.dat at model/left.ldr:1
quad 4 - cert clip ccw -40,0,-20 -40,0,20 40,0,20 40,0,-20 parts/3001.dat:7
tri 4 - cert clip ccw 0,-4,0 6,-4,0 0,-4,6 p/stud.dat:7
line e4 - cert clip ccw 0,-4,0 6,-4,0 p/stud.dat:8
part 4 - parts/3001.dat at model/left.ldr:2
quad 4 - cert clip ccw -40,0,60 -40,0,100 40,0,100 40,0,60 parts/3001.dat:7
tri 4 - cert clip ccw 0,-4,80 6,-4,80 0,-4,86 p/stud.dat:7
line e4 - cert clip ccw 0,-4,80 6,-4,80 p/stud.dat:8
part 4 - parts/3001.dat at model/left.ldr:3
quad 4 - cert clip ccw -40,0,140 -40,0,180 40,0,180 40,0,140 parts/3001.dat:7
tri 4 - cert clip ccw 0,-4,160 6,-4,160 0,-4,166 p/stud.dat:7
line e4 - cert clip ccw 0,-4,160 6,-4,160 p/stud.dat:8
part 14 - parts/3001.dat at model/left.ldr:5
quad 14 - cert clip ccw -40,0,220 -40,0,260 40,0,260 40,0,220 parts/3001.dat:7
tri 14 - cert clip ccw 0,-4,240 6,-4,240 0,-4,246 p/stud.dat:7
line e14 - cert clip ccw 0,-4,240 6,-4,240 p/stud.dat:8
part 14 - parts/3001.dat at model/left.ldr:6
quad 14 - cert clip ccw -40,0,300 -40,0,340 40,0,340 40,0,300 parts/3001.dat:7
tri 14 - cert clip ccw 0,-4,320 6,-4,320 0,-4,326 p/stud.dat:7
line e14 - cert clip ccw 0,-4,320 6,-4,320 p/stud.dat:8
part 1 - parts/3001.dat at model/car.ldr:7
quad 1 - cert clip ccw 60,0,-20 60,0,20 140,0,20 140,0,-20 parts/3001.dat:7
tri 1 - cert clip ccw 100,-4,0 106,-4,0 100,-4,6 p/stud.dat:7
line e1 - cert clip ccw 100,-4,0 106,-4,0 p/stud.dat:8
part 1 - parts/3001.dat at model/right.ldr:1
quad 1 - cert clip ccw -40,-24,-20 -40,-24,20 40,-24,20 40,-24,-20 parts/3001.dat:7
tri 1 - cert clip ccw 0,-28,0 6,-28,0 0,-28,6 p/stud.dat:7
line e1 - cert clip ccw 0,-28,0 6,-28,0 p/stud.dat:8
part 1 - parts/3001.dat at model/right.ldr:2
quad 1 - cert clip ccw -40,-24,60 -40,-24,100 40,-24,100 40,-24,60 parts/3001.dat:7
tri 1 - cert clip ccw 0,-28,80 6,-28,80 0,-28,86 p/stud.dat:7
line e1 - cert clip ccw 0,-28,80 6,-28,80 p/stud.dat:8
part 1 - parts/3001.dat at model/right.ldr:3
quad 1 - cert clip ccw -40,-24,140 -40,-24,180 40,-24,180 40,-24,140 parts/3001.dat:7
tri 1 - cert clip ccw 0,-28,160 6,-28,160 0,-28,166 p/stud.dat:7
line e1 - cert clip ccw 0,-28,160 6,-28,160 p/stud.dat:8
part 4 - parts/3001.dat at model/right.ldr:4
quad 4 - cert clip ccw -40,-24,220 -40,-24,260 40,-24,260 40,-24,220 parts/3001.dat:7
tri 4 - cert clip ccw 0,-28,240 6,-28,240 0,-28,246 p/stud.dat:7
line e4 - cert clip ccw 0,-28,240 6,-28,240 p/stud.dat:8
part 4 - parts/3001.dat at model/right.ldr:5
quad 4 - cert clip ccw -40,-24,300 -40,-24,340 40,-24,340 40,-24,300 parts/3001.dat:7
tri 4 - cert clip ccw 0,-28,320 6,-28,320 0,-28,326 p/stud.dat:7
line e4 - cert clip ccw 0,-28,320 6,-28,320 p/stud.dat:8
part 1 - parts/3001.dat at model/car.ldr:10
quad 1 - cert clip ccw 160,0,-20 160,0,20 240,0,20 240,0,-20 parts/3001.dat:7
tri 1 - cert clip ccw 200,-4,0 206,-4,0 200,-4,6 p/stud.dat:7
line e1 - cert clip ccw 200,-4,0 206,-4,0 p/stud.dat:8
";
