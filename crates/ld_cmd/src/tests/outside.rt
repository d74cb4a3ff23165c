// Each fetch and each put failed in turn: no fault is told as another answer, none is tried again, and nothing is fetched
// or put that is not wanted. The replies before a fault stand, each whole.
pub(crate) const OUTSIDE: &str = "@nothing fails
faces m.ldr!0 0 0
^work m.ldr
1 16 0 0 0 1 0 0 0 1 0 0 0 1 x.dat
^parts x.dat
~0 3 1
part 16 - parts/x.dat at model/m.ldr:1
@nothing to write is not put
faces m.ldr!0 0 0
^work m.ldr
~0 1 0
@first fetch fails
faces m.ldr!1 0 0
^work m.ldr
1 16 0 0 0 1 0 0 0 1 0 0 0 1 x.dat
^parts x.dat
~4 1 0
@second fetch fails
faces m.ldr!2 0 0
^work m.ldr
1 16 0 0 0 1 0 0 0 1 0 0 0 1 x.dat
^parts x.dat
~4 2 0
@third fetch fails
faces m.ldr!3 0 0
^work m.ldr
1 16 0 0 0 1 0 0 0 1 0 0 0 1 x.dat
^parts x.dat
~4 3 0
@later calls would fail
faces m.ldr!4 2 0
^work m.ldr
1 16 0 0 0 1 0 0 0 1 0 0 0 1 x.dat
^parts x.dat
~0 3 1
part 16 - parts/x.dat at model/m.ldr:1
@put fails behind three bytes
faces m.ldr!0 1 3
^work m.ldr
3 16 0 0 0 1.0000005 0 0 0 -.5 0
^parts x.dat
~5 1 1
tri@fetch fails before a put would
faces m.ldr!2 1 4
^work m.ldr
1 16 0 0 0 1 0 0 0 1 0 0 0 1 x.dat
^parts x.dat
~4 2 0
@no fetch behind an absent colour file
faces m.ldr --colours gone.ldr!0 0 0
^work m.ldr
3 16 0 0 0 1.0000005 0 0 0 -.5 0
^parts x.dat
~3 2 1
absent gone.ldr
@fetch of the colour file fails
faces m.ldr --colours gone.ldr!2 0 0
^work m.ldr
3 16 0 0 0 1.0000005 0 0 0 -.5 0
^parts x.dat
~4 2 0
@put of a line fails
faces gone.ldr!0 1 3
^work m.ldr
3 16 0 0 0 1.0000005 0 0 0 -.5 0
^parts x.dat
~5 1 1
abs@put of the usage line fails
faces!1 1 6
^work m.ldr
3 16 0 0 0 1.0000005 0 0 0 -.5 0
^parts x.dat
~5 0 1
usage:@no reply fails
replay m.ldr s.txt!0 0 0
^work m.ldr
1 16 0 0 0 1 0 0 0 1 0 0 0 1 x.dat
^work s.txt
new\tmodel\tm.ldr
faces
parts^parts x.dat
~0 4 3
refused filethere
part 16 - parts/x.dat at model/m.ldr:1
done
1 16 parts/x.dat
done
@fetch of the script fails
replay m.ldr s.txt!2 0 0
^work m.ldr
1 16 0 0 0 1 0 0 0 1 0 0 0 1 x.dat
^work s.txt
new\tmodel\tm.ldr
faces
parts^parts x.dat
~4 2 0
@fetch fails behind a reply
replay m.ldr s.txt!4 0 0
^work m.ldr
1 16 0 0 0 1 0 0 0 1 0 0 0 1 x.dat
^work s.txt
new\tmodel\tm.ldr
faces
parts^parts x.dat
~4 4 1
refused filethere
@put of the first reply fails
replay m.ldr s.txt!0 1 3
^work m.ldr
1 16 0 0 0 1 0 0 0 1 0 0 0 1 x.dat
^work s.txt
new\tmodel\tm.ldr
faces
parts^parts x.dat
~5 2 1
ref@put of the second reply fails
replay m.ldr s.txt!0 2 0
^work m.ldr
1 16 0 0 0 1 0 0 0 1 0 0 0 1 x.dat
^work s.txt
new\tmodel\tm.ldr
faces
parts^parts x.dat
~5 4 2
refused filethere
@fetch of an edit fails behind a reply
replay m.ldr s.txt!3 0 0
^work m.ldr
0 a
^work s.txt
del\tmodel\tm.ldr\t1
drop\tparts\tx.dat
faces^parts x.dat
~4 3 1
ok
@fetch of a file to check fails
check m.ldr!1 0 0
^work m.ldr
1 16 0 0 0 1 0 0 0 1 0 0 0 1 x.dat
~4 1 0
@fetch of the colour file of a made-up model fails
gen 1 --colours c.ldr!1 0 0
^work c.ldr
~4 1 0
@fetch of the file of a script fails
replay m.ldr s.txt --colours c.ldr!1 0 0
^work m.ldr
^work s.txt
faces^work c.ldr
~4 1 0
@fetch of the colour file of a script fails
replay m.ldr s.txt --colours c.ldr!3 0 0
^work m.ldr
^work s.txt
faces^work c.ldr
~4 3 0
@a script without a command puts nothing
replay m.ldr s.txt!0 0 0
^work m.ldr
^work s.txt
~0 2 0
@no file is fetched for findings but the model
check m.ldr!0 0 0
^work m.ldr
1 16 0 0 0 1 0 0 0 1 0 0 0 1 x.dat
^parts x.dat
~1 1 1
1 101
1 107
2 102
3 104
4 105
5 106
@no file is fetched for a made-up model
gen 1!0 0 0
^parts x.dat
~0 0 1
entries 4
parts 1
steps 1
";
