// Faulty words, files that are absent or bad, and the own names of models.
pub(crate) const WORDS: &str = "@absent file
faces gone.ldr
~3
absent gone.ldr
@absent file before an absent colour file
faces a/b\\gone.ldr --colours gone.ldr
~3
absent a/b\\gone.ldr
@absent colour file
faces m.ldr --colours gone.ldr
^work m.ldr
6 junk
~3
absent gone.ldr
@bad colour line
faces m.ldr --colours c.ldr
^work m.ldr
^work c.ldr
0 a comment
0 !COLOUR X CODE 4 VALUE red EDGE 0
~3
badcolour 2
@no words

^work m.ldr
6 junk
~2
usage: ldraw (faces|steps|parts|inline|check) FILE | replay FILE SCRIPT | gen N
@no file
faces
^work m.ldr
6 junk
~2
usage: ldraw (faces|steps|parts|inline|check) FILE | replay FILE SCRIPT | gen N
@no worker
faces m.ldr --workers 0
^work m.ldr
6 junk
~2
usage: ldraw (faces|steps|parts|inline|check) FILE | replay FILE SCRIPT | gen N
@too many workers
faces m.ldr --workers 17
^work m.ldr
6 junk
~2
usage: ldraw (faces|steps|parts|inline|check) FILE | replay FILE SCRIPT | gen N
@no colour
faces m.ldr --main red
^work m.ldr
6 junk
~2
usage: ldraw (faces|steps|parts|inline|check) FILE | replay FILE SCRIPT | gen N
@option twice
faces m.ldr --main 4 --main 4
^work m.ldr
6 junk
~2
usage: ldraw (faces|steps|parts|inline|check) FILE | replay FILE SCRIPT | gen N
@option before the file
faces --main 4 m.ldr
^work m.ldr
6 junk
~2
usage: ldraw (faces|steps|parts|inline|check) FILE | replay FILE SCRIPT | gen N
@option with an equals sign
faces m.ldr --main=4
^work m.ldr
6 junk
~2
usage: ldraw (faces|steps|parts|inline|check) FILE | replay FILE SCRIPT | gen N
@two files
faces a/b/My Car.LDR
^work m.ldr
6 junk
~2
usage: ldraw (faces|steps|parts|inline|check) FILE | replay FILE SCRIPT | gen N
@no bricks
gen 0
^work m.ldr
6 junk
~2
usage: ldraw (faces|steps|parts|inline|check) FILE | replay FILE SCRIPT | gen N
@no such command
help
^work m.ldr
6 junk
~2
usage: ldraw (faces|steps|parts|inline|check) FILE | replay FILE SCRIPT | gen N
@no file to inline
inline
^work m.ldr
6 junk
~2
usage: ldraw (faces|steps|parts|inline|check) FILE | replay FILE SCRIPT | gen N
@no script
replay m.ldr
^work m.ldr
6 junk
~2
usage: ldraw (faces|steps|parts|inline|check) FILE | replay FILE SCRIPT | gen N
@own name
faces\tm.ldr
^work m.ldr
2 24 0 0 0 1 0 0
~0
line 24 - nocert clip ccw 0,0,0 1,0,0 model/m.ldr:1
@own name in small letters, without folders
faces\ta/b/My Car.LDR
^work a/b/My Car.LDR
2 24 0 0 0 1 0 0
~0
line 24 - nocert clip ccw 0,0,0 1,0,0 model/my car.ldr:1
@own name behind a backslash
faces\ta\\b.ldr
^work a\\b.ldr
2 24 0 0 0 1 0 0
~0
line 24 - nocert clip ccw 0,0,0 1,0,0 model/b.ldr:1
@own name of a word that ends in a slash
faces\ta/
^work a/
2 24 0 0 0 1 0 0
~0
line 24 - nocert clip ccw 0,0,0 1,0,0 model/model.ldr:1
@own name without a normal form
faces\ta/..
^work a/..
2 24 0 0 0 1 0 0
~0
line 24 - nocert clip ccw 0,0,0 1,0,0 model/model.ldr:1
@own name that is too long
faces\taaaaaaaaaaaaaaaaaaaaaaaaaaaaaaaaaaaaaaaaaaaaaaaaaaaaaaaaaaaaaaaaaaaaaaaaaaaaaaaaaaaaaaaaaaaaaaaaaaaaaaaaaaaaaaaaaaaaaaaaaaaaaaaaaaaaaaaaaaaaaaaaaaaaaaaaaaaaaaaaaaaaaaaaaaaaaaaaaaaaaaaaaaaaaaaaaaaaaaaaaaaaaaaaaaaaaaaaaaaaaaaaaaaaaaaaaaaaaaaaaaaaaaaaaaaaaaaa
^work aaaaaaaaaaaaaaaaaaaaaaaaaaaaaaaaaaaaaaaaaaaaaaaaaaaaaaaaaaaaaaaaaaaaaaaaaaaaaaaaaaaaaaaaaaaaaaaaaaaaaaaaaaaaaaaaaaaaaaaaaaaaaaaaaaaaaaaaaaaaaaaaaaaaaaaaaaaaaaaaaaaaaaaaaaaaaaaaaaaaaaaaaaaaaaaaaaaaaaaaaaaaaaaaaaaaaaaaaaaaaaaaaaaaaaaaaaaaaaaaaaaaaaaaaaaaaaaa
2 24 0 0 0 1 0 0
~0
line 24 - nocert clip ccw 0,0,0 1,0,0 model/model.ldr:1
";
