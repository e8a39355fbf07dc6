//! Positions of one to five cards a hand, 0 to 3 of them on the trick, with the answers of DDS 2.9, which plain minimax gives
//! too.
use dd_bounds::NoTable;
use dd_solve::DoubleDummy;
use dd_tool::reply_to_line;

/// The request lines.
const LINES: &[u8] =
    br#"{"do":"solve","deal":"W:.9.. ..Q. ...K 5...","trump":2,"first":1,"solutions":2}
{"do":"solve","deal":"E:8.5.. ...92 2..A. 3..Q.","trump":1,"first":0,"solutions":3}
{"do":"solve","deal":"E:.7.AT. ..K6.K .83.2. ...953","trump":2,"first":3,"played":[],"solutions":3}
{"do":"solve","deal":"W:5..J72. .K.K.AQ KT..T.T J2.52..","trump":4,"first":3,"played":[],"solutions":3}
{"do":"solve","deal":"W:T.KT.Q.9 J.J.T9.T KQ..K.QJ 9.Q9.J.K","trump":3,"first":1,"solutions":1}
{"do":"solve","deal":"N:... A... 3... .8..","trump":4,"first":0,"played":[[0,10]],"solutions":3}
{"do":"solve","deal":"E:6.9.. .8.. .A..7 .Q..3","trump":1,"first":2,"played":[[2,12]],"solutions":3}
{"do":"solve","deal":"W:..62.9 ...J82 ..T.5 ..84.3","trump":2,"first":1,"played":[[2,9]],"solutions":2}
{"do":"solve","deal":"W:.T7.AQ. .Q83.J. .J96.. .52.53.","trump":3,"first":1,"played":[[2,7]],"solutions":2}
{"do":"solve","deal":"E:97.7..KQ ..T52.95 T.A3.K.4 K.KJ.6.","trump":4,"first":0,"played":[[1,9]],"solutions":1}
{"do":"solve","deal":"W:.6.. 6... ... ...","trump":2,"first":1,"played":[[3,6],[2,6]],"solutions":3}
{"do":"solve","deal":"E:..43. ..K2. .3.. 4...","trump":4,"first":3,"played":[[1,9],[0,5]],"solutions":1}
{"do":"solve","deal":"S:..94. 7..3.8 ..7.54 2..2.","trump":1,"first":1,"played":[[1,6],[2,14]],"solutions":2}
{"do":"solve","deal":"N:9.J.5. AT..J3. 2.K94.. ...KJT","trump":1,"first":3,"played":[[3,2],[1,7]],"solutions":1}
{"do":"solve","deal":"S:6..J.72 AT..75. Q9..K32. 83..A.Q3","trump":3,"first":2,"played":[[2,9],[2,4]],"solutions":1}
{"do":"solve","deal":"N:... ... ...7 ...","trump":4,"first":3,"played":[[1,7],[0,7],[2,7]],"solutions":2}
{"do":"solve","deal":"E:.4.. ..A4. Q... ...8","trump":4,"first":3,"played":[[2,13],[2,10],[2,12]],"solutions":1}
{"do":"solve","deal":"N:.A..7 84... ..9.K K5..A.","trump":4,"first":0,"played":[[3,8],[3,4],[3,10]],"solutions":3}
{"do":"solve","deal":"S:98.7.. 6.8..9 7.96.7. ..8.76","trump":2,"first":1,"played":[[2,6],[2,9],[3,8]],"solutions":2}
{"do":"solve","deal":"W:T.432.. 98.A6.. 32.Q9.. AJ654...","trump":1,"first":3,"played":[[1,10],[1,11],[1,13]],"solutions":2}
{"do":"solve","deal":"N:9... ..9. .9.. ...9","trump":4,"first":0,"solutions":2}
{"do":"solve","deal":"S:..9.A A2... ..KJ. .K6..","trump":3,"first":3,"solutions":3}
{"do":"solve","deal":"S:.5..94 ..T3.T .A9.7. K..5.8","trump":4,"first":2,"solutions":1}
{"do":"solve","deal":"S:AT.T.4. KQ9.K.. J.2.J.6 .Q.QT.3","trump":0,"first":0,"solutions":3}
{"do":"solve","deal":"W:.8.7.T86 987.9..9 .T.T96.7 T6.76.8.","trump":4,"first":2,"played":[],"solutions":2}
{"do":"solve","deal":"N:.A.. ... ..Q. .K..","trump":4,"first":1,"played":[[1,2]],"solutions":2}
{"do":"solve","deal":"W:A9... T.2.. .9.. ...74","trump":1,"first":1,"played":[[3,2]],"solutions":3}
{"do":"solve","deal":"S:.5.4.9 6.K.K. Q5...T .4..2","trump":1,"first":1,"played":[[1,12]],"solutions":3}
{"do":"solve","deal":"W:JT..9.Q .J9.J.J 9..QT.9 .QT..T","trump":2,"first":2,"played":[[0,12]],"solutions":3}
{"do":"solve","deal":"W:5.A7.Q7. T.KT.8. 2.95.K5. ..A2.J73","trump":3,"first":0,"played":[[3,8]],"solutions":3}
{"do":"solve","deal":"S:... ... ..2. ..T.","trump":0,"first":2,"played":[[1,12],[2,4]],"solutions":1}
{"do":"solve","deal":"S:.Q.. .J..Q ..J.J ..Q.","trump":0,"first":1,"played":[[0,12],[0,11]],"solutions":2}
{"do":"solve","deal":"E:8...AJ ..QJ. ..76. .7.T5.","trump":4,"first":2,"played":[[0,7],[1,5]],"solutions":2}
{"do":"solve","deal":"E:J6..T. 53..5.K T7.6.2. .K.QJ.","trump":2,"first":0,"played":[[3,3],[3,6]],"solutions":3}
{"do":"solve","deal":"N:.T.QT8.Q Q9...J9 .J9.J.8 J.Q8.9.T","trump":4,"first":1,"played":[[0,10],[0,8]],"solutions":3}
{"do":"solve","deal":"E:..8. ... ... ...","trump":3,"first":2,"played":[[1,8],[3,8],[0,8]],"solutions":1}
{"do":"solve","deal":"W:...T4 ...5 ...A ...2","trump":4,"first":0,"played":[[3,6],[3,7],[3,9]],"solutions":3}
{"do":"solve","deal":"W:.76.. 3..T.6 2...2 .T..J","trump":1,"first":1,"played":[[2,2],[1,8],[2,7]],"solutions":3}
{"do":"solve","deal":"W:..K93. 8..72. 2.A.A8. .6..93","trump":4,"first":2,"played":[[1,11],[1,5],[2,5]],"solutions":1}
{"do":"solve","deal":"N:Q.A.73. ..K54.2 .JT4.6. .Q93.98.","trump":0,"first":0,"played":[[0,4],[2,2],[0,8]],"solutions":2}
{"do":"solve","deal":"N:...3 .8.. ...J ...A","trump":1,"first":2,"played":[],"solutions":2}
{"do":"solve","deal":"W:Q...J J.Q.. .J.J. ..Q.Q","trump":3,"first":0,"solutions":3}
{"do":"solve","deal":"N:J..J.T .9.T9. T.J..J 9.T..9","trump":1,"first":3,"solutions":3}
{"do":"solve","deal":"E:.8..875 865..5. 7.75.6. .6.87.6","trump":3,"first":2,"solutions":2}
{"do":"solve","deal":"E:A84.63.. 732.4.A. .A852.J. J5..876.","trump":0,"first":3,"solutions":2}
{"do":"solve","deal":"W:...K ... A... ..A.","trump":1,"first":0,"played":[[3,10]],"solutions":1}
{"do":"solve","deal":"W:.5.5. K..J. 6.9.. ..4.","trump":2,"first":2,"played":[[3,8]],"solutions":1}
{"do":"solve","deal":"W:A5...A .7.A.7 9.A.. .2.52.","trump":1,"first":1,"played":[[2,6]],"solutions":1}
{"do":"solve","deal":"S:7.A4.4. 65...97 .JT2.. T3.7.K.","trump":0,"first":0,"played":[[3,5]],"solutions":3}
{"do":"solve","deal":"E:K8.Q7.7. 42.3.6.K 5.K2.J9. 97...J9","trump":4,"first":0,"played":[[2,2]],"solutions":2}
{"do":"solve","deal":"S:K... ... ... Q...","trump":2,"first":3,"played":[[1,9],[0,3]],"solutions":3}
{"do":"solve","deal":"S:..8. ...9 .6.A. ..T.6","trump":1,"first":2,"played":[[1,9],[1,12]],"solutions":3}
{"do":"solve","deal":"E:4..5. ..T.5 .92.3. T..Q2.","trump":1,"first":1,"played":[[0,2],[0,3]],"solutions":3}
{"do":"solve","deal":"W:.3.J5.7 .T.T.3 T6...K 74.8..T","trump":1,"first":0,"played":[[2,2],[1,6]],"solutions":1}
{"do":"solve","deal":"W:9.T43..8 A5.87.T. .Q.J85. 6.9.K.5","trump":1,"first":1,"played":[[2,12],[2,9]],"solutions":2}
{"do":"solve","deal":"E:...K ... ... ...","trump":2,"first":2,"played":[[2,12],[0,14],[3,11]],"solutions":3}
{"do":"solve","deal":"W:T... 62... K... Q...","trump":1,"first":1,"played":[[0,3],[0,5],[0,9]],"solutions":1}
{"do":"solve","deal":"N:.96.. 3...T 2..7. ..Q.85","trump":1,"first":0,"played":[[1,13],[0,9],[1,11]],"solutions":3}
{"do":"solve","deal":"W:86.6.. ..Q6.8 3.A.2.3 2..J7.","trump":2,"first":2,"played":[[3,2],[1,11],[3,13]],"solutions":3}
{"do":"solve","deal":"E:.J..7532 .AQ.6.J Q2..A3. .T4.9.9","trump":3,"first":2,"played":[[0,14],[0,8],[2,8]],"solutions":3}
{"do":"solve","deal":"E:6... 4... .Q.. ..8.","trump":2,"first":3,"solutions":3}
{"do":"solve","deal":"N:J.K.. 2.9.. .Q8.. AK...","trump":0,"first":3,"solutions":2}
{"do":"solve","deal":"N:5.54.. 4..3.3 3..5.5 .3.4.4","trump":4,"first":2,"solutions":2}
{"do":"solve","deal":"N:T...JT9 8.AQ8.. Q.T.QT. 96..93.","trump":0,"first":1,"played":[],"solutions":3}
{"do":"solve","deal":"N:.J9.KQ.5 .K8..AQT ..T3.J93 .5.96.K6","trump":1,"first":3,"solutions":3}
{"do":"solve","deal":"W:..9. ... .9.. 8...","trump":0,"first":0,"played":[[1,5]],"solutions":1}
{"do":"solve","deal":"W:..32. 3.2.. .3.. 2...3","trump":3,"first":1,"played":[[3,2]],"solutions":2}
{"do":"solve","deal":"S:.KQT.. T7... .3.J.2 .6.3.T","trump":1,"first":3,"played":[[3,12]],"solutions":2}
{"do":"solve","deal":"S:Q.9.J.J .QJT.. J..T.T9 T9..Q9.","trump":0,"first":3,"played":[[3,12]],"solutions":2}
{"do":"solve","deal":"E:A.K.QJ.Q QJ..KT.J KT.AQT.. .J.A.AT","trump":3,"first":0,"played":[[3,13]],"solutions":3}
{"do":"solve","deal":"S:... 7... .A.. ...","trump":0,"first":1,"played":[[0,4],[3,6]],"solutions":2}
{"do":"solve","deal":"N:.4.3. 3..4. ...4 4...","trump":1,"first":2,"played":[[1,3],[3,3]],"solutions":3}
{"do":"solve","deal":"E:.Q9..7 5.7..9 ..2.A ..3.T","trump":4,"first":3,"played":[[1,5],[1,6]],"solutions":1}
{"do":"solve","deal":"S:K.KQT.. J..KT.K Q..QJ. T...QJ","trump":0,"first":0,"played":[[1,11],[3,10]],"solutions":3}
{"do":"solve","deal":"N:T..876.T 5.5..32 .942..J 96...864","trump":0,"first":1,"played":[[0,7],[0,4]],"solutions":3}
{"do":"solve","deal":"W:..A. ... ... ...","trump":0,"first":0,"played":[[2,8],[2,11],[3,8]],"solutions":3}
{"do":"solve","deal":"W:..Q. Q.K.. ...Q .Q..","trump":1,"first":1,"played":[[0,13],[3,13],[2,13]],"solutions":3}
{"do":"solve","deal":"E:76... Q...2 .3.T7. ...96","trump":1,"first":0,"played":[[1,14],[1,7],[2,2]],"solutions":3}
{"do":"solve","deal":"N:..KJT. T.T.Q. QJ.J.. K.KQ..Q","trump":3,"first":0,"played":[[3,11],[3,13],[3,10]],"solutions":3}
{"do":"solve","deal":"E:T.QJ..T AJ.AT.K. Q.K.Q.A K...KQJ","trump":2,"first":3,"played":[[2,11],[2,10],[2,14]],"solutions":3}
{"do":"solve","deal":"E:..4. ...5 A... ..5.","trump":3,"first":1,"solutions":2}
{"do":"solve","deal":"E:5.8.. ..AQ. 73... ..62.","trump":4,"first":1,"solutions":3}
{"do":"solve","deal":"W:K..J8. 9.4.Q. ..A.J6 .2.2.9","trump":4,"first":3,"solutions":2}
{"do":"solve","deal":"S:9.Q..T5 .5.J.A4 53.T.Q. A6...73","trump":2,"first":0,"solutions":2}
{"do":"solve","deal":"E:JT9...K3 86...864 K43...AJ Q7...T97","trump":1,"first":0,"solutions":3}
{"do":"solve","deal":"N:...K ... ...9 .J..","trump":1,"first":1,"played":[[2,14]],"solutions":1}
{"do":"solve","deal":"W:Q..Q. .K..Q .Q.. ..K.K","trump":3,"first":1,"played":[[0,13]],"solutions":1}
{"do":"solve","deal":"N:.5..JT .Q4..5 ..T.2 .T7.3.","trump":1,"first":2,"played":[[0,7]],"solutions":3}
{"do":"solve","deal":"W:...QT2 .T76.2. .85.4.3 QJ...94","trump":3,"first":3,"played":[[3,14]],"solutions":3}
{"do":"solve","deal":"S:5..6.975 .86.87. 6.7.5.86 987.5.9.","trump":0,"first":3,"played":[[1,9]],"solutions":1}
{"do":"solve","deal":"W:.9.. .8.. ... ...","trump":4,"first":1,"played":[[2,5],[3,9]],"solutions":2}
{"do":"solve","deal":"W:..7. .AK.. ..86. ...5","trump":4,"first":2,"played":[[3,13],[0,7]],"solutions":2}
{"do":"solve","deal":"N:A6...K 43... .8.5. J..T6.","trump":0,"first":1,"played":[[0,13],[1,2]],"solutions":2}
{"do":"solve","deal":"W:Q.8..52 ..Q72. 5...43 .9.A3.Q","trump":4,"first":0,"played":[[2,10],[0,2]],"solutions":3}
{"do":"solve","deal":"E:.2.T65. 2..A.T5 .J7.KJ4. .QT8.Q3.","trump":2,"first":1,"played":[[1,4],[2,9]],"solutions":2}
{"do":"solve","deal":"N:... ... 7... ...","trump":0,"first":3,"played":[[0,10],[3,5],[2,7]],"solutions":2}
{"do":"solve","deal":"E:..A. ...JT ..7. .K..","trump":0,"first":3,"played":[[3,9],[2,10],[1,3]],"solutions":1}
{"do":"solve","deal":"E:.K.J. .Q.2. .4.4. .9..K3","trump":2,"first":1,"played":[[3,10],[3,9],[3,6]],"solutions":3}
{"do":"solve","deal":"N:..A.J6 ..852. .AJ.J.4 ..63.9","trump":2,"first":3,"played":[[1,2],[1,7],[3,12]],"solutions":3}
{"do":"solve","deal":"S:K..K6.K T.9..A2 .74..J74 4.65.A.","trump":0,"first":1,"played":[[2,4],[2,12],[2,10]],"solutions":3}
{"do":"solve","deal":"W:...Q ..A. ..3. .3..","trump":2,"first":1,"solutions":1}
{"do":"solve","deal":"E:...A2 ..2.3 K...4 .T..8","trump":3,"first":2,"solutions":3}
{"do":"solve","deal":"E:.T98.. 2.J3.. K.A..3 8.6..T","trump":0,"first":1,"solutions":3}
{"do":"solve","deal":"W:8..8.97 .T7..T8 T7.9.7. 9.8.T9.","trump":3,"first":2,"solutions":2}
{"do":"solve","deal":"S:A5...QT6 Q82...72 J.KJ..J9 T93.2..3","trump":1,"first":3,"solutions":1}
{"do":"solve","deal":"W:...6 9... 6... ...","trump":1,"first":2,"played":[[3,3]],"solutions":1}
{"do":"solve","deal":"W:.K.8. 7...K ...Q J2...","trump":0,"first":1,"played":[[2,12]],"solutions":1}
{"do":"solve","deal":"N:.84.9. ..52.K ..QJ. 2.9.A.","trump":1,"first":2,"played":[[2,13]],"solutions":3}
{"do":"solve","deal":"S:J5...A6 K4..3. A..K65. .T3.82.","trump":4,"first":3,"played":[[3,2]],"solutions":1}
{"do":"solve","deal":"W:KJ.QT..9 .J9.Q.QT QT9..K.J .K.JT9.","trump":3,"first":2,"played":[[3,13]],"solutions":3}
{"do":"solve","deal":"W:... .Q.. .7.. ...","trump":4,"first":2,"played":[[3,4],[0,5]],"solutions":1}
{"do":"solve","deal":"E:96... ...94 ..7. ...5","trump":0,"first":3,"played":[[2,13],[0,7]],"solutions":3}
{"do":"solve","deal":"S:...AT ..86.J ..Q.74 ..K.6","trump":4,"first":1,"played":[[2,7],[3,5]],"solutions":3}
{"do":"solve","deal":"S:96..8. ..QJ.K7 ..KT9.4 A.4.5.","trump":1,"first":1,"played":[[2,3],[2,6]],"solutions":3}
{"do":"solve","deal":"S:72.3..K 9.A5..83 3...AT52 K4.6..7","trump":2,"first":1,"played":[[1,11],[1,7]],"solutions":3}
{"do":"solve","deal":"W:... ... ...K ...","trump":4,"first":2,"played":[[2,13],[1,13],[0,13]],"solutions":2}
{"do":"solve","deal":"E:.8.. ..7. 7...7 .7..","trump":0,"first":0,"played":[[3,8],[0,8],[2,8]],"solutions":3}
{"do":"solve","deal":"E:JT..Q. Q.Q.. .T.J. .J.T.","trump":3,"first":2,"played":[[3,10],[3,12],[3,11]],"solutions":2}
{"do":"solve","deal":"E:J73... 5..9.4 ..JT7. .Q.AK8.","trump":4,"first":1,"played":[[3,3],[3,13],[0,6]],"solutions":3}
{"do":"solve","deal":"S:T6.4..K 53...63 .T.Q65.2 ..84.J5","trump":4,"first":1,"played":[[1,5],[1,3],[3,8]],"solutions":3}
{"do":"solve","deal":"N:.5.. T... 6... .9..","trump":0,"first":2,"solutions":1}
{"do":"solve","deal":"W:.2..A .8..8 .Q.8. ..T.9","trump":3,"first":3,"solutions":3}
{"do":"solve","deal":"E:T.J8.. 3.AQ.. ..K6.3 ..54.T","trump":3,"first":1,"solutions":3}
{"do":"solve","deal":"E:3..J95. AJ7..4. Q6..A3. K..QT8.","trump":2,"first":1,"solutions":3}
{"do":"solve","deal":"W:82.K4.A. J6.Q8..J A7..4.76 Q.7.65.3","trump":3,"first":0,"solutions":2}
{"do":"solve","deal":"W:..J. ...J ... ...8","trump":3,"first":1,"played":[[0,7]],"solutions":3}
{"do":"solve","deal":"N:...AJ ...3 ...82 ...T6","trump":0,"first":1,"played":[[3,7]],"solutions":2}
{"do":"solve","deal":"S:42... 9..A.4 .AQ2.. ...A86","trump":3,"first":2,"played":[[0,13]],"solutions":3}
{"do":"solve","deal":"E:98.84.. JT.T..4 .7.2.6 ..7.JT9","trump":4,"first":3,"played":[[0,5]],"solutions":3}
{"do":"solve","deal":"N:T8.T..97 ..987.T6 76.86..8 9.97.6.","trump":2,"first":3,"played":[[2,10]],"solutions":1}
{"do":"solve","deal":"N:K... ... ... ..T.","trump":0,"first":1,"played":[[2,3],[0,8]],"solutions":3}
{"do":"solve","deal":"N:8... J.J.. 32... ...3","trump":0,"first":3,"played":[[2,11],[2,7]],"solutions":3}
{"do":"solve","deal":"W:...73 .A8..K 6.K2.. 3..J.","trump":2,"first":2,"played":[[2,3],[2,4]],"solutions":3}
{"do":"solve","deal":"S:...A962 A7...JT 5...74 6...83","trump":0,"first":0,"played":[[0,12],[0,9]],"solutions":2}
{"do":"solve","deal":"N:AK.J..42 75..94. 3.62..7 T8.K.Q3.","trump":2,"first":1,"played":[[2,6],[1,12]],"solutions":2}
{"do":"solve","deal":"W:..8. ... ... ...","trump":1,"first":0,"played":[[1,12],[3,12],[1,3]],"solutions":2}
{"do":"solve","deal":"W:...3 ...K ...JT ...9","trump":1,"first":2,"played":[[3,4],[3,8],[3,5]],"solutions":2}
{"do":"solve","deal":"E:...74 .8..2 7.K..8 .95..","trump":2,"first":0,"played":[[0,2],[0,9],[0,12]],"solutions":1}
{"do":"solve","deal":"W:.2..AK 2.9.T.2 6.J3.. ..842.","trump":1,"first":1,"played":[[0,12],[1,13],[0,8]],"solutions":2}
{"do":"solve","deal":"E:.3.Q762. .Q6..A9 6..3.K6 .A75..2","trump":0,"first":2,"played":[[1,13],[1,4],[1,11]],"solutions":1}
{"do":"solve","deal":"E:..3. 3... .3.. ...3","trump":3,"first":1,"solutions":3}
{"do":"solve","deal":"E:.J..A 9...T ...74 .98..","trump":3,"first":0,"solutions":1}
{"do":"solve","deal":"E:Q.8..7 ..T.Q8 T6..3. 8.T7..","trump":0,"first":1,"solutions":2}
{"do":"solve","deal":"N:4..A98. .J.5.Q7 .Q8.KT. AJ.96..","trump":1,"first":3,"played":[],"solutions":3}
{"do":"solve","deal":"E:Q.A3.K9. A.T7..J5 .J84..KQ 3.K2.4.6","trump":1,"first":1,"solutions":1}
{"do":"solve","deal":"W:9... .J.. ..Q. ...","trump":2,"first":2,"played":[[3,11]],"solutions":1}
{"do":"solve","deal":"E:T...Q J...A 6... ...73","trump":2,"first":3,"played":[[3,6]],"solutions":2}
{"do":"solve","deal":"W:..6.64 .6.54. .5..5 64.4..","trump":4,"first":1,"played":[[0,5]],"solutions":1}
{"do":"solve","deal":"S:83.J8.. JT.52.. K95... Q2.73..","trump":3,"first":0,"played":[[1,13]],"solutions":1}
{"do":"solve","deal":"S:76.9.5.5 ..876.97 5.76..86 8.85.9.","trump":4,"first":1,"played":[[0,9]],"solutions":1}
{"do":"solve","deal":"S:..Q. .Q.. ... ...","trump":2,"first":0,"played":[[3,12],[0,12]],"solutions":3}
{"do":"solve","deal":"E:.K.A. A...K K... .A..","trump":3,"first":3,"played":[[2,13],[3,14]],"solutions":3}
{"do":"solve","deal":"E:J.T.. Q...Q T.J.Q. .Q.T.T","trump":0,"first":1,"played":[[2,11],[3,11]],"solutions":3}
{"do":"solve","deal":"S:73.T..J Q5.5..T .Q..A3 ..3.76","trump":2,"first":0,"played":[[3,4],[3,5]],"solutions":1}
{"do":"solve","deal":"W:AK.6.9.6 98..J7. 7...AQ2 .K4.K52.","trump":4,"first":0,"played":[[1,14],[1,5]],"solutions":2}
{"do":"solve","deal":"W:... .T.. ... ...","trump":0,"first":1,"played":[[0,9],[1,4],[2,8]],"solutions":3}
{"do":"solve","deal":"S:.97.. 4... .4.. Q...","trump":4,"first":3,"played":[[3,2],[3,6],[0,11]],"solutions":3}
{"do":"solve","deal":"S:..Q6. T8.5.. ..J.K ..T9.","trump":3,"first":0,"played":[[3,10],[3,5],[1,7]],"solutions":2}
{"do":"solve","deal":"S:..J.K6 ...J954 .2.5.3 ..K.T2","trump":4,"first":0,"played":[[1,10],[3,8],[2,3]],"solutions":3}
{"do":"solve","deal":"S:5..AK74. A.52..Q 932...J .QJT.J.","trump":4,"first":3,"played":[[3,8],[3,7],[3,14]],"solutions":2}
{"do":"solve","deal":"S:..A. ...A A... .A..","trump":0,"first":3,"solutions":3}
{"do":"solve","deal":"E:K.8.. .Q5.. 5.7.. A7...","trump":1,"first":1,"solutions":3}
{"do":"solve","deal":"W:T..32. KJ4... 5..75. A82...","trump":2,"first":1,"solutions":3}
{"do":"solve","deal":"W:3.J.5.A .7.K.T2 J.3..Q4 ..AT82.","trump":4,"first":1,"played":[],"solutions":3}
{"do":"solve","deal":"N:975.A2.. A3...J63 KQ.Q4..9 .K3..AK8","trump":2,"first":0,"played":[],"solutions":2}
{"do":"solve","deal":"W:..K. .7.. ... ..A.","trump":3,"first":1,"played":[[1,3]],"solutions":3}
{"do":"solve","deal":"S:7... ..4.8 T..8. 6...T","trump":0,"first":2,"played":[[0,3]],"solutions":3}
{"do":"solve","deal":"E:..Q3.4 A5... .J7..8 .2.7.Q","trump":4,"first":2,"played":[[3,9]],"solutions":1}
{"do":"solve","deal":"S:.54..Q K.32..J 7.AJ6.. QT6.9..","trump":2,"first":2,"played":[[3,9]],"solutions":1}
{"do":"solve","deal":"W:4.A9.K4. T9.K7.. K.J82.8. J3.54.9.","trump":4,"first":0,"played":[[0,8]],"solutions":2}
{"do":"solve","deal":"S:...2 ... ... 2...","trump":0,"first":3,"played":[[2,2],[1,2]],"solutions":2}
{"do":"solve","deal":"E:...4 ..3. ..9.Q 6.A..","trump":0,"first":1,"played":[[3,14],[0,5]],"solutions":2}
{"do":"solve","deal":"N:..K86. 2...T2 ..T2. ..9.8","trump":0,"first":2,"played":[[1,3],[3,11]],"solutions":3}
{"do":"solve","deal":"S:.2..JT T.AT..2 .K4.84. .3.76.","trump":4,"first":1,"played":[[1,8],[1,6]],"solutions":2}
{"do":"solve","deal":"N:.QT76.Q. AKQ..53. 3.8.9.T .J.T8.9","trump":2,"first":2,"played":[[2,11],[2,13]],"solutions":3}
{"do":"solve","deal":"W:... ... ... ..2.","trump":0,"first":3,"played":[[3,13],[0,14],[2,11]],"solutions":3}
{"do":"solve","deal":"E:6... K... .72.. 2...","trump":4,"first":0,"played":[[1,5],[1,9],[1,6]],"solutions":3}
{"do":"solve","deal":"W:.3..4 ..T.T T2...6 ..A.7","trump":2,"first":2,"played":[[0,8],[0,7],[3,2]],"solutions":3}
{"do":"solve","deal":"E:Q96... K7.65.. J.73.. 5.J9..","trump":0,"first":3,"played":[[0,4],[0,14],[0,3]],"solutions":2}
{"do":"solve","deal":"W:.QJ.9.6 .T52..7 7.94..K 2.6.K.A5","trump":2,"first":3,"played":[[2,3],[2,12],[2,8]],"solutions":1}
{"do":"solve","deal":"S:.8.. .2.. ..8. .5..","trump":2,"first":2,"played":[],"solutions":1}
{"do":"solve","deal":"N:3...K .54.. .J..8 .2..T","trump":3,"first":3,"solutions":2}
{"do":"solve","deal":"S:...KT7 ...J85 ...Q42 ...A96","trump":4,"first":1,"solutions":1}
{"do":"solve","deal":"N:T.T..98 98..T9. ..J8.JT J.J98..","trump":1,"first":2,"played":[],"solutions":1}
{"do":"solve","deal":"E:63.4.32. 5.532.4. 2..65.42 4.6..653","trump":1,"first":2,"solutions":3}
{"do":"solve","deal":"N:..7. ..3. .8.. ...","trump":4,"first":3,"played":[[0,12]],"solutions":3}
{"do":"solve","deal":"W:Q...7 ..Q. .73.. ..3.5","trump":3,"first":0,"played":[[0,9]],"solutions":3}
{"do":"solve","deal":"S:.KT2.. .AQ9.. .J8.. .653..","trump":1,"first":0,"played":[[1,7]],"solutions":2}
{"do":"solve","deal":"W:9.86.7. .9.9.9 7.7.6.8 86...76","trump":4,"first":0,"played":[[2,8]],"solutions":3}
{"do":"solve","deal":"W:Q7.9..A5 .JT6.A. J3..72.K 85.8..42","trump":1,"first":0,"played":[[0,13]],"solutions":3}
{"do":"solve","deal":"N:..Q. ... ... .J..","trump":1,"first":1,"played":[[3,7],[3,12]],"solutions":1}
{"do":"solve","deal":"N:..Q. J... .Q4.. ..K9.","trump":4,"first":0,"played":[[2,6],[0,9]],"solutions":2}
{"do":"solve","deal":"N:9..7.9 ..8.87 8.9.. 7.7..","trump":3,"first":2,"played":[[2,9],[1,8]],"solutions":1}
{"do":"solve","deal":"S:AK...Q Q.KQ.. .J.AJ.K J.A.K.J","trump":1,"first":2,"played":[[2,12],[3,14]],"solutions":3}
{"do":"solve","deal":"W:.KQ8.85. .2.42.Q2 9.7.J.T KJ7.6..","trump":0,"first":1,"played":[[3,14],[2,13]],"solutions":2}
{"do":"solve","deal":"E:... ... ...T ...","trump":2,"first":0,"played":[[3,4],[3,13],[3,14]],"solutions":3}
{"do":"solve","deal":"N:...8 .8.. 9...9 .9..","trump":1,"first":3,"played":[[2,8],[0,8],[2,9]],"solutions":1}
{"do":"solve","deal":"N:Q..9. 7.8.. T.T..J ..Q.3","trump":0,"first":3,"played":[[3,10],[2,5],[1,14]],"solutions":3}
{"do":"solve","deal":"W:543... J.K5.2. ..K.54 .AQ.6.","trump":3,"first":1,"played":[[0,6],[0,14],[0,2]],"solutions":3}
{"do":"solve","deal":"W:J.T.T5. Q4..7.AJ ..A.K64 T.8.K3.","trump":2,"first":1,"played":[[1,14],[1,5],[1,6]],"solutions":3}"#;

/// Their replies, as DDS's scores give them.
const REPLIES: &[u8] = br#"{"cards":[{"equals":0,"rank":13,"score":0,"suit":3}]}
{"cards":[{"equals":0,"rank":3,"score":0,"suit":0},{"equals":0,"rank":12,"score":0,"suit":2}]}
{"cards":[{"equals":0,"rank":8,"score":2,"suit":1},{"equals":0,"rank":3,"score":2,"suit":1},{"equals":0,"rank":2,"score":2,"suit":2}]}
{"cards":[{"equals":0,"rank":5,"score":1,"suit":0},{"equals":0,"rank":11,"score":0,"suit":2},{"equals":4,"rank":7,"score":0,"suit":2}]}
{"cards":[{"equals":4096,"rank":13,"score":4,"suit":0}]}
{"cards":[{"equals":0,"rank":14,"score":1,"suit":0}]}
{"cards":[{"equals":0,"rank":14,"score":1,"suit":1},{"equals":0,"rank":7,"score":1,"suit":3}]}
{"cards":[{"equals":0,"rank":8,"score":1,"suit":2},{"equals":0,"rank":4,"score":1,"suit":2}]}
{"cards":[{"equals":8,"rank":5,"score":1,"suit":2}]}
{"cards":[{"equals":0,"rank":7,"score":4,"suit":1}]}
{"cards":[{"equals":0,"rank":6,"score":0,"suit":1}]}
{"cards":[{"equals":8,"rank":4,"score":2,"suit":2}]}
{"cards":[{"equals":0,"rank":3,"score":3,"suit":2}]}
{"cards":[{"equals":1024,"rank":14,"score":0,"suit":0}]}
{"cards":[{"equals":0,"rank":13,"score":1,"suit":2}]}
{"cards":[{"equals":0,"rank":7,"score":0,"suit":3}]}
{"cards":[{"equals":0,"rank":14,"score":2,"suit":2}]}
{"cards":[{"equals":0,"rank":13,"score":1,"suit":0},{"equals":0,"rank":5,"score":1,"suit":0},{"equals":0,"rank":14,"score":0,"suit":2}]}
{"cards":[{"equals":0,"rank":7,"score":2,"suit":2}]}
{"cards":[{"equals":2048,"rank":14,"score":2,"suit":0},{"equals":48,"rank":6,"score":2,"suit":0}]}
{"cards":[{"equals":0,"rank":9,"score":1,"suit":0}]}
{"cards":[{"equals":4,"rank":14,"score":0,"suit":0}]}
{"cards":[{"equals":0,"rank":5,"score":2,"suit":1}]}
{"cards":[{"equals":0,"rank":11,"score":1,"suit":0},{"equals":0,"rank":2,"score":1,"suit":1},{"equals":0,"rank":11,"score":1,"suit":2},{"equals":0,"rank":6,"score":1,"suit":3}]}
{"cards":[{"equals":0,"rank":10,"score":3,"suit":0}]}
{"cards":[{"equals":0,"rank":12,"score":1,"suit":2}]}
{"cards":[{"equals":16,"rank":7,"score":1,"suit":3}]}
{"cards":[{"equals":0,"rank":5,"score":0,"suit":1}]}
{"cards":[{"equals":1024,"rank":11,"score":2,"suit":0}]}
{"cards":[{"equals":0,"rank":2,"score":0,"suit":0},{"equals":0,"rank":9,"score":0,"suit":1},{"equals":0,"rank":5,"score":0,"suit":1},{"equals":0,"rank":13,"score":0,"suit":2},{"equals":0,"rank":5,"score":0,"suit":2}]}
{"cards":[{"equals":0,"rank":2,"score":1,"suit":2}]}
{"cards":[{"equals":0,"rank":11,"score":2,"suit":1},{"equals":0,"rank":12,"score":2,"suit":3}]}
{"cards":[{"equals":0,"rank":7,"score":0,"suit":1},{"equals":0,"rank":10,"score":0,"suit":2},{"equals":0,"rank":5,"score":0,"suit":2}]}
{"cards":[{"equals":0,"rank":13,"score":2,"suit":3}]}
{"cards":[{"equals":0,"rank":11,"score":2,"suit":0}]}
{"cards":[{"equals":0,"rank":8,"score":1,"suit":2}]}
{"cards":[{"equals":0,"rank":10,"score":2,"suit":3},{"equals":0,"rank":4,"score":1,"suit":3}]}
{"cards":[{"equals":0,"rank":10,"score":2,"suit":2}]}
{"cards":[{"equals":0,"rank":14,"score":4,"suit":1}]}
{"cards":[{"equals":0,"rank":12,"score":2,"suit":1},{"equals":0,"rank":9,"score":2,"suit":1},{"equals":0,"rank":3,"score":2,"suit":1},{"equals":256,"rank":9,"score":2,"suit":2}]}
{"cards":[{"equals":0,"rank":11,"score":0,"suit":3}]}
{"cards":[{"equals":0,"rank":11,"score":1,"suit":0},{"equals":0,"rank":12,"score":1,"suit":1}]}
{"cards":[{"equals":0,"rank":9,"score":2,"suit":0},{"equals":0,"rank":9,"score":2,"suit":3},{"equals":0,"rank":10,"score":0,"suit":1}]}
{"cards":[{"equals":0,"rank":8,"score":0,"suit":0},{"equals":32,"rank":6,"score":0,"suit":0},{"equals":0,"rank":5,"score":0,"suit":2}]}
{"cards":[{"equals":256,"rank":14,"score":3,"suit":1},{"equals":0,"rank":5,"score":3,"suit":1},{"equals":0,"rank":2,"score":3,"suit":1},{"equals":0,"rank":11,"score":3,"suit":2}]}
{"cards":[{"equals":0,"rank":14,"score":1,"suit":0}]}
{"cards":[{"equals":0,"rank":5,"score":0,"suit":1}]}
{"cards":[{"equals":4,"rank":5,"score":2,"suit":2}]}
{"cards":[{"equals":0,"rank":10,"score":3,"suit":0},{"equals":0,"rank":3,"score":3,"suit":0},{"equals":0,"rank":7,"score":3,"suit":1},{"equals":0,"rank":13,"score":3,"suit":2}]}
{"cards":[{"equals":0,"rank":7,"score":5,"suit":2}]}
{"cards":[{"equals":0,"rank":12,"score":1,"suit":0}]}
{"cards":[{"equals":0,"rank":6,"score":0,"suit":1}]}
{"cards":[{"equals":4,"rank":9,"score":2,"suit":1},{"equals":0,"rank":3,"score":2,"suit":2}]}
{"cards":[{"equals":0,"rank":7,"score":2,"suit":0}]}
{"cards":[{"equals":0,"rank":9,"score":4,"suit":0},{"equals":8,"rank":4,"score":4,"suit":1},{"equals":0,"rank":8,"score":4,"suit":3}]}
{"cards":[{"equals":0,"rank":13,"score":0,"suit":3}]}
{"cards":[{"equals":0,"rank":6,"score":0,"suit":0}]}
{"cards":[{"equals":0,"rank":12,"score":0,"suit":2},{"equals":32,"rank":8,"score":0,"suit":3}]}
{"cards":[{"equals":0,"rank":3,"score":0,"suit":3}]}
{"cards":[{"equals":0,"rank":11,"score":3,"suit":1},{"equals":44,"rank":7,"score":3,"suit":3}]}
{"cards":[{"equals":0,"rank":12,"score":0,"suit":1}]}
{"cards":[{"equals":8192,"rank":14,"score":2,"suit":0}]}
{"cards":[{"equals":0,"rank":3,"score":3,"suit":0},{"equals":0,"rank":5,"score":3,"suit":2},{"equals":0,"rank":5,"score":3,"suit":3}]}
{"cards":[{"equals":4096,"rank":14,"score":2,"suit":1},{"equals":0,"rank":8,"score":2,"suit":1},{"equals":0,"rank":8,"score":1,"suit":0}]}
{"cards":[{"equals":0,"rank":5,"score":4,"suit":1},{"equals":0,"rank":13,"score":4,"suit":3},{"equals":0,"rank":6,"score":4,"suit":3},{"equals":64,"rank":9,"score":3,"suit":2}]}
{"cards":[{"equals":0,"rank":9,"score":0,"suit":1}]}
{"cards":[{"equals":0,"rank":3,"score":2,"suit":3}]}
{"cards":[{"equals":0,"rank":2,"score":3,"suit":3}]}
{"cards":[{"equals":512,"rank":10,"score":1,"suit":3}]}
{"cards":[{"equals":0,"rank":12,"score":1,"suit":3}]}
{"cards":[{"equals":0,"rank":7,"score":1,"suit":0}]}
{"cards":[{"equals":0,"rank":4,"score":1,"suit":1}]}
{"cards":[{"equals":512,"rank":12,"score":3,"suit":1}]}
{"cards":[{"equals":4096,"rank":13,"score":2,"suit":1},{"equals":0,"rank":10,"score":2,"suit":1}]}
{"cards":[{"equals":0,"rank":9,"score":3,"suit":0},{"equals":0,"rank":6,"score":3,"suit":0}]}
{"cards":[{"equals":0,"rank":14,"score":1,"suit":2}]}
{"cards":[{"equals":0,"rank":12,"score":1,"suit":0}]}
{"cards":[{"equals":0,"rank":3,"score":0,"suit":1}]}
{"cards":[{"equals":0,"rank":12,"score":4,"suit":3}]}
{"cards":[{"equals":0,"rank":13,"score":2,"suit":2}]}
{"cards":[{"equals":0,"rank":4,"score":0,"suit":2}]}
{"cards":[{"equals":0,"rank":5,"score":2,"suit":0},{"equals":0,"rank":8,"score":2,"suit":1}]}
{"cards":[{"equals":0,"rank":13,"score":3,"suit":0},{"equals":256,"rank":11,"score":3,"suit":2}]}
{"cards":[{"equals":0,"rank":10,"score":2,"suit":1},{"equals":0,"rank":12,"score":2,"suit":2}]}
{"cards":[{"equals":512,"rank":10,"score":1,"suit":3},{"equals":0,"rank":7,"score":1,"suit":3},{"equals":0,"rank":12,"score":0,"suit":0},{"equals":0,"rank":7,"score":0,"suit":0}]}
{"cards":[{"equals":0,"rank":9,"score":0,"suit":3}]}
{"cards":[{"equals":0,"rank":13,"score":2,"suit":2}]}
{"cards":[{"equals":128,"rank":10,"score":3,"suit":1},{"equals":0,"rank":3,"score":3,"suit":2}]}
{"cards":[{"equals":0,"rank":10,"score":0,"suit":1},{"equals":64,"rank":7,"score":0,"suit":1},{"equals":0,"rank":2,"score":0,"suit":2}]}
{"cards":[{"equals":0,"rank":7,"score":1,"suit":1}]}
{"cards":[{"equals":0,"rank":9,"score":1,"suit":1}]}
{"cards":[{"equals":8192,"rank":14,"score":2,"suit":1}]}
{"cards":[{"equals":0,"rank":11,"score":1,"suit":0}]}
{"cards":[{"equals":0,"rank":14,"score":4,"suit":2},{"equals":0,"rank":3,"score":4,"suit":2}]}
{"cards":[{"equals":0,"rank":11,"score":2,"suit":1},{"equals":0,"rank":7,"score":2,"suit":1}]}
{"cards":[{"equals":0,"rank":7,"score":0,"suit":0}]}
{"cards":[{"equals":1024,"rank":11,"score":2,"suit":3}]}
{"cards":[{"equals":0,"rank":13,"score":1,"suit":3},{"equals":0,"rank":3,"score":0,"suit":3}]}
{"cards":[{"equals":2048,"rank":14,"score":3,"suit":1}]}
{"cards":[{"equals":0,"rank":7,"score":3,"suit":1},{"equals":0,"rank":4,"score":3,"suit":1},{"equals":144,"rank":11,"score":3,"suit":3}]}
{"cards":[{"equals":0,"rank":3,"score":0,"suit":2}]}
{"cards":[{"equals":0,"rank":2,"score":0,"suit":2},{"equals":0,"rank":3,"score":0,"suit":3}]}
{"cards":[{"equals":768,"rank":10,"score":2,"suit":1}]}
{"cards":[{"equals":512,"rank":10,"score":4,"suit":2}]}
{"cards":[{"equals":0,"rank":12,"score":0,"suit":0}]}
{"cards":[{"equals":0,"rank":6,"score":1,"suit":3}]}
{"cards":[{"equals":0,"rank":11,"score":2,"suit":0}]}
{"cards":[{"equals":0,"rank":14,"score":2,"suit":2}]}
{"cards":[{"equals":32,"rank":6,"score":4,"suit":2}]}
{"cards":[{"equals":0,"rank":9,"score":1,"suit":3}]}
{"cards":[{"equals":0,"rank":12,"score":1,"suit":1}]}
{"cards":[{"equals":0,"rank":9,"score":2,"suit":0},{"equals":0,"rank":6,"score":1,"suit":0}]}
{"cards":[{"equals":0,"rank":8,"score":0,"suit":2},{"equals":0,"rank":6,"score":0,"suit":2}]}
{"cards":[{"equals":2048,"rank":12,"score":3,"suit":2}]}
{"cards":[{"equals":0,"rank":14,"score":4,"suit":1},{"equals":0,"rank":5,"score":3,"suit":1}]}
{"cards":[{"equals":0,"rank":13,"score":0,"suit":3}]}
{"cards":[{"equals":0,"rank":7,"score":2,"suit":3}]}
{"cards":[{"equals":1024,"rank":11,"score":2,"suit":0},{"equals":0,"rank":12,"score":2,"suit":2}]}
{"cards":[{"equals":0,"rank":12,"score":4,"suit":1},{"equals":8192,"rank":14,"score":4,"suit":2},{"equals":0,"rank":8,"score":4,"suit":2}]}
{"cards":[{"equals":0,"rank":10,"score":5,"suit":1}]}
{"cards":[{"equals":0,"rank":6,"score":0,"suit":0}]}
{"cards":[{"equals":0,"rank":14,"score":2,"suit":3},{"equals":0,"rank":2,"score":1,"suit":1}]}
{"cards":[{"equals":0,"rank":10,"score":2,"suit":0},{"equals":256,"rank":11,"score":2,"suit":1}]}
{"cards":[{"equals":0,"rank":3,"score":2,"suit":0},{"equals":0,"rank":9,"score":2,"suit":2},{"equals":0,"rank":5,"score":2,"suit":2},{"equals":0,"rank":11,"score":1,"suit":2}]}
{"cards":[{"equals":0,"rank":6,"score":2,"suit":0}]}
{"cards":[{"equals":0,"rank":8,"score":1,"suit":3}]}
{"cards":[{"equals":0,"rank":8,"score":2,"suit":3},{"equals":0,"rank":2,"score":2,"suit":3}]}
{"cards":[{"equals":0,"rank":9,"score":3,"suit":0}]}
{"cards":[{"equals":0,"rank":7,"score":4,"suit":2},{"equals":1536,"rank":11,"score":4,"suit":3}]}
{"cards":[{"equals":0,"rank":10,"score":0,"suit":0}]}
{"cards":[{"equals":0,"rank":10,"score":0,"suit":2}]}
{"cards":[{"equals":0,"rank":11,"score":1,"suit":0},{"equals":0,"rank":11,"score":1,"suit":1}]}
{"cards":[{"equals":0,"rank":14,"score":2,"suit":1},{"equals":0,"rank":8,"score":2,"suit":1},{"equals":0,"rank":13,"score":1,"suit":3}]}
{"cards":[{"equals":0,"rank":9,"score":1,"suit":3},{"equals":0,"rank":6,"score":1,"suit":3},{"equals":0,"rank":2,"score":1,"suit":3}]}
{"cards":[{"equals":0,"rank":12,"score":4,"suit":2},{"equals":0,"rank":3,"score":4,"suit":2}]}
{"cards":[{"equals":0,"rank":8,"score":0,"suit":2}]}
{"cards":[{"equals":1024,"rank":11,"score":1,"suit":3}]}
{"cards":[{"equals":0,"rank":7,"score":2,"suit":0}]}
{"cards":[{"equals":0,"rank":2,"score":1,"suit":0}]}
{"cards":[{"equals":0,"rank":3,"score":3,"suit":1}]}
{"cards":[{"equals":0,"rank":3,"score":0,"suit":2}]}
{"cards":[{"equals":256,"rank":9,"score":1,"suit":1}]}
{"cards":[{"equals":0,"rank":8,"score":3,"suit":1}]}
{"cards":[{"equals":2048,"rank":14,"score":3,"suit":0},{"equals":0,"rank":6,"score":1,"suit":1},{"equals":0,"rank":9,"score":0,"suit":1}]}
{"cards":[{"equals":0,"rank":12,"score":4,"suit":0}]}
{"cards":[{"equals":0,"rank":9,"score":1,"suit":0}]}
{"cards":[{"equals":0,"rank":7,"score":2,"suit":3},{"equals":0,"rank":3,"score":2,"suit":3}]}
{"cards":[{"equals":0,"rank":6,"score":3,"suit":0}]}
{"cards":[{"equals":0,"rank":7,"score":1,"suit":1}]}
{"cards":[{"equals":64,"rank":7,"score":1,"suit":0}]}
{"cards":[{"equals":0,"rank":12,"score":1,"suit":2}]}
{"cards":[{"equals":0,"rank":14,"score":0,"suit":2}]}
{"cards":[{"equals":0,"rank":12,"score":1,"suit":2}]}
{"cards":[{"equals":0,"rank":11,"score":2,"suit":3}]}
{"cards":[{"equals":0,"rank":13,"score":5,"suit":1},{"equals":0,"rank":4,"score":5,"suit":1}]}
{"cards":[{"equals":0,"rank":10,"score":0,"suit":1}]}
{"cards":[{"equals":128,"rank":9,"score":2,"suit":1}]}
{"cards":[{"equals":256,"rank":10,"score":0,"suit":0},{"equals":0,"rank":5,"score":0,"suit":1}]}
{"cards":[{"equals":0,"rank":11,"score":1,"suit":3},{"equals":0,"rank":9,"score":1,"suit":3},{"equals":16,"rank":5,"score":1,"suit":3}]}
{"cards":[{"equals":0,"rank":5,"score":1,"suit":0},{"equals":8192,"rank":14,"score":1,"suit":2},{"equals":16,"rank":7,"score":1,"suit":2}]}
{"cards":[{"equals":0,"rank":14,"score":0,"suit":3}]}
{"cards":[{"equals":0,"rank":13,"score":0,"suit":0},{"equals":0,"rank":8,"score":0,"suit":1}]}
{"cards":[{"equals":0,"rank":5,"score":2,"suit":0},{"equals":32,"rank":7,"score":2,"suit":2}]}
{"cards":[{"equals":0,"rank":3,"score":4,"suit":1},{"equals":0,"rank":4,"score":4,"suit":3},{"equals":0,"rank":11,"score":3,"suit":0},{"equals":0,"rank":12,"score":3,"suit":3}]}
{"cards":[{"equals":160,"rank":9,"score":1,"suit":0},{"equals":0,"rank":14,"score":1,"suit":1}]}
{"cards":[{"equals":0,"rank":14,"score":1,"suit":2}]}
{"cards":[{"equals":0,"rank":4,"score":0,"suit":2},{"equals":0,"rank":8,"score":0,"suit":3}]}
{"cards":[{"equals":0,"rank":8,"score":2,"suit":3}]}
{"cards":[{"equals":0,"rank":11,"score":2,"suit":3}]}
{"cards":[{"equals":0,"rank":13,"score":4,"suit":0}]}
{"cards":[{"equals":0,"rank":2,"score":1,"suit":0}]}
{"cards":[{"equals":0,"rank":12,"score":0,"suit":3}]}
{"cards":[{"equals":0,"rank":13,"score":0,"suit":2},{"equals":64,"rank":8,"score":0,"suit":2}]}
{"cards":[{"equals":0,"rank":14,"score":2,"suit":1},{"equals":0,"rank":10,"score":2,"suit":1}]}
{"cards":[{"equals":0,"rank":12,"score":0,"suit":2}]}
{"cards":[{"equals":0,"rank":2,"score":1,"suit":2}]}
{"cards":[{"equals":0,"rank":7,"score":1,"suit":1},{"equals":0,"rank":2,"score":1,"suit":1}]}
{"cards":[{"equals":0,"rank":10,"score":1,"suit":0},{"equals":0,"rank":2,"score":0,"suit":0}]}
{"cards":[{"equals":0,"rank":7,"score":2,"suit":0}]}
{"cards":[{"equals":0,"rank":13,"score":2,"suit":2}]}
{"cards":[{"equals":0,"rank":8,"score":1,"suit":1}]}
{"cards":[{"equals":0,"rank":2,"score":0,"suit":1},{"equals":0,"rank":10,"score":0,"suit":3}]}
{"cards":[{"equals":0,"rank":14,"score":1,"suit":3}]}
{"cards":[{"equals":0,"rank":11,"score":1,"suit":2}]}
{"cards":[{"equals":0,"rank":5,"score":5,"suit":1},{"equals":4,"rank":3,"score":5,"suit":1},{"equals":0,"rank":5,"score":4,"suit":0},{"equals":0,"rank":4,"score":4,"suit":2}]}
{"cards":[{"equals":0,"rank":7,"score":0,"suit":2}]}
{"cards":[{"equals":8,"rank":7,"score":1,"suit":1}]}
{"cards":[{"equals":40,"rank":6,"score":2,"suit":1}]}
{"cards":[{"equals":0,"rank":6,"score":0,"suit":2}]}
{"cards":[{"equals":0,"rank":11,"score":0,"suit":0},{"equals":0,"rank":3,"score":0,"suit":0}]}
{"cards":[{"equals":0,"rank":11,"score":1,"suit":1}]}
{"cards":[{"equals":16,"rank":12,"score":0,"suit":1}]}
{"cards":[{"equals":0,"rank":7,"score":2,"suit":2}]}
{"cards":[{"equals":0,"rank":14,"score":2,"suit":2},{"equals":0,"rank":11,"score":1,"suit":2}]}
{"cards":[{"equals":4352,"rank":13,"score":2,"suit":1},{"equals":32,"rank":8,"score":2,"suit":2}]}
{"cards":[{"equals":0,"rank":10,"score":0,"suit":3}]}
{"cards":[{"equals":0,"rank":9,"score":0,"suit":0}]}
{"cards":[{"equals":0,"rank":11,"score":3,"suit":3}]}
{"cards":[{"equals":0,"rank":11,"score":1,"suit":0}]}
{"cards":[{"equals":0,"rank":7,"score":3,"suit":2},{"equals":0,"rank":12,"score":1,"suit":0},{"equals":0,"rank":4,"score":1,"suit":0},{"equals":0,"rank":14,"score":1,"suit":3},{"equals":0,"rank":11,"score":1,"suit":3}]}"#;

#[test]
fn recorded_deals_have_the_answers_of_dds(rt: HostRuntime) {
    let mut replies = REPLIES.split(|byte| *byte == b'\n');
    for line in LINES.split(|byte| *byte == b'\n') {
        let reply = reply_to_line(rt.alloc(), line, &DoubleDummy, &mut NoTable, None);
        assert_eq!(rt;
            Some(reply.as_str().as_bytes()),
            replies.next(),
            "at {line:?}"
        );
    }
    assert_eq!(rt; replies.next(), None);
}
