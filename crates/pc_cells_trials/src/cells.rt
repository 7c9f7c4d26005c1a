mod drawn;
mod plain;
mod shared;

const SHOP: &[u8] = b"branch,cat,Chicago,NewYork,Trenton\nday,int,1,31\nprice,dec,2,0.00,1000.00\n";
